// What is printed in a value field of 14 columns, and what is held of it. It is tested first; the number of a fit one is then made of its columns
// with no test, and a blank and a minus count as 0.
#![tactic(auto)]

ghost use Rattle.std.specs.Prelude.{◌≡◌, true, ◌-◌, ◌^◌, ◌≤◌, ◌<◌, eqb, length};
ghost use Rattle.std.specs.Prelude.{Some};
ghost use Rattle.lists.specs.Lists.{is_in};
ghost use Rattle.lists.specs.Maybe.{is_given};
ghost use Rattle.field.specs.Field.{value_of};
ghost use Rattle.field.specs.Found.{decimal_of};
ghost use Rattle.rinex.specs.Data.{held_as};
ghost use Rattle.rinex.specs.Tables.{state_of, signed_of};
ghost use Rattle.rinex.specs.Tests.{value_fits};
ghost use Rattle.value.specs.Lines.{Prints};
ghost use Rattle.value.specs.Steps.{may_follow, follow};

use field::Unfit;
use field::read::{is_digit, signed};
use lists::is_blank;

// Whether b may stand behind p before the point: a digit, or behind a blank a blank or a minus.
fn may_follow(p: u8, b: u8) -> bool
    ensures { result ≡ may_follow p b }
{
    is_digit(b) | ((p == b' ') & ((b == b' ') | (b == b'-')))
}

// Whether the 10 columns before the point are blanks, perhaps a minus, and digits: no exit, so that 8 are one step.
fn lead_fits(s: &[u8]) -> bool
    requires { length s.now ≡ 10 }
    ensures { result ≡ follow 32 s.now }
{
    let mut fit = may_follow(b' ', s[0]) & may_follow(s[0], s[1]);
    for i in 2..10 {
        fit &= may_follow(s[i - 1], s[i]);
    }
    fit
}

// Whether the 14 columns of a value are fit; no number is made of them.
fn value_fits(s: &[u8]) -> bool
    requires { length s.now ≡ 14 }
    ensures { result ≡ value_fits s.now }
{
    if s[10] != b'.' {
        return is_blank(s);
    }
    lead_fits(&s[..10]) & is_digit(s[11]) & is_digit(s[12]) & is_digit(s[13])
}

// The digit b, and 0 for a byte below the digits.
fn digit(b: u8) -> u64
    ensures { (result ≡ b - 48) × (result ≤ 207) }
{
    u64::from(b.saturating_sub(b'0'))
}

// The number of 10 columns or fewer.
fn number(s: &[u8]) -> u64
    requires { length s.now ≤ 10 }
    ensures { (result ≡ value_of 0 s.now) × (result < 10 ^ 12) }
{
    let mut v = 0;
    for b in s {
        v = v * 10 + digit(*b);
    }
    v
}

// Whether one of the columns is a minus; no exit.
fn has_minus(s: &[u8]) -> bool
    ensures { result ≡ is_in eqb 45 s.now }
{
    let mut found = false;
    for b in s {
        found |= *b == b'-';
    }
    found
}

// The number of a fit value; 0 where it is blank.
pub fn value_number(s: &[u8]) -> i64
    requires { (length s.now ≡ 14) × (value_fits s.now ≡ true) }
    ensures { result ≡ signed_of (decimal_of 3 s.now) }
{
    let whole = number(&s[..10]);
    let part = number(&s[11..]);
    signed(has_minus(&s[..10]), whole * 1000 + part)
}

// The state of what is held of a number: 0 is held as blank.
pub fn held_state(number: i64) -> u8
    ensures { result ≡ state_of (held_as (Some number)) }
{
    if number == 0 { 0 } else { 1 }
}

// Whether a fit value has a number: one that has ends with a digit.
fn has_number(s: &[u8]) -> bool
    requires { (length s.now ≡ 14) × (value_fits s.now ≡ true) }
    ensures { result ≡ is_given (decimal_of 3 s.now) }
{
    s[13] != b' '
}

// Whether a value field is fit, and whether it has a number if so.
pub fn printed_in(s: &[u8]) -> Result<bool, Unfit>
    requires { length s.now ≡ 14 }
    ensures { Prints s.now result }
{
    if !value_fits(s) {
        return Err(Unfit);
    }
    Ok(has_number(s))
}
