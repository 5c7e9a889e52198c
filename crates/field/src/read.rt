// Reads fields: a number, or none where a field is blank. The promises are specs/Reading.antt.
ghost use Rattle.std.specs.Prelude.{◌≡◌, ◌<◌, ◌≤◌, length};
ghost use Rattle.lists.specs.Maybe.{given};
ghost use Rattle.field.specs.Field;
ghost use Rattle.field.specs.Found.{whole_of};
ghost use Rattle.field.specs.Reading.{most, ReadsWhole, ReadsDecimal, ReadsSecond, ReadsMark};
ghost use Rattle.field.specs.Steps.{Lead, number_in, ReadsDigits, ReadsPlain, ReadsSigned};

use crate::Unfit;

// How many blanks s begins with.
fn blanks(s: &[u8]) -> usize
    ensures { Lead s.now result }
{
    s.iter().position(|b| *b != b' ').unwrap_or(s.len())
}

pub fn is_digit(b: u8) -> bool
    ensures { result ≡ Field.is_digit b }
{
    b.is_ascii_digit()
}

// The number of the digits s after the number m, where all are digits and it is below 10¹⁸.
fn number(s: &[u8], m: u64) -> Option<u64>
    requires { m < most }
    ensures { result ≡ number_in m s.now }
{
    let mut v = m;
    for b in s {
        if !is_digit(*b) || 100_000_000_000_000_000 <= v {
            return None;
        }
        v = v * 10 + u64::from(*b - b'0');
    }
    Some(v)
}

// One digit or more.
fn some_digits(s: &[u8]) -> Result<Option<u64>, Unfit>
    ensures { ReadsDigits s.now result }
{
    if s.is_empty() {
        return Ok(None);
    }
    Ok(Some(number(s, 0).ok_or(Unfit)?))
}

pub fn whole(s: &[u8]) -> Result<Option<u64>, Unfit>
    ensures { ReadsWhole s.now result }
{
    some_digits(&s[blanks(s)..])
}

// Digits, perhaps none, a point and d digits.
fn plain(s: &[u8], d: usize) -> Result<u64, Unfit>
    ensures { ReadsPlain d s.now result }
{
    if s.len() <= d {
        return Err(Unfit);
    }
    let p = s.len() - d - 1;
    if s[p] != b'.' {
        return Err(Unfit);
    }
    let whole = number(&s[..p], 0).ok_or(Unfit)?;
    number(&s[p + 1..], whole).ok_or(Unfit)
}

// n, or its negative.
pub fn signed(minus: bool, n: u64) -> i64
    requires { n < most }
    ensures { result ≡ Field.signed minus n }
{
    if minus { -(n as i64) } else { n as i64 }
}

// What stands after the sign, under it.
fn under_sign(minus: bool, s: &[u8], d: usize) -> Result<i64, Unfit>
    ensures { ReadsSigned minus d s.now result }
{
    Ok(signed(minus, plain(s, d)?))
}

pub fn decimal(s: &[u8], d: usize) -> Result<Option<i64>, Unfit>
    ensures { ReadsDecimal d s.now result }
{
    match &s[blanks(s)..] {
        [] => Ok(None),
        [b'-', rest @ ..] => under_sign(true, rest, d).map(Some),
        rest => under_sign(false, rest, d).map(Some),
    }
}

// One or two digits, a point and seven digits, below 60 s.
pub fn second(s: &[u8]) -> Result<Option<u64>, Unfit>
    ensures { ReadsSecond s.now result }
{
    let b = blanks(s);
    if b == s.len() {
        return Ok(None);
    }
    if !(9..=10).contains(&(s.len() - b)) {
        return Err(Unfit);
    }
    let n = plain(&s[b..], 7)?;
    if 600_000_000 <= n {
        return Err(Unfit);
    }
    Ok(Some(n))
}

// The whole number of a field, and `other` where it is unfit.
pub fn whole_or(field: &[u8], other: u64) -> u64
    requires { length field.now ≤ 18 }
    ensures { result ≡ given other (whole_of field.now) }
{
    whole(field).unwrap_or(None).unwrap_or(other)
}

pub fn mark(b: u8, top: u8) -> Result<Option<u8>, Unfit>
    ensures { ReadsMark top b result }
{
    match b {
        b' ' => Ok(None),
        b'0'.. if b - b'0' <= top => Ok(Some(b - b'0')),
        _ => Err(Unfit),
    }
}
