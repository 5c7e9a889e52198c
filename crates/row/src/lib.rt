// Whether the slots of a row are fit: 16 columns each, a value and two marks.
#![tactic(auto)]

ghost use Rattle.std.specs.Prelude.{◌≡◌, ◌^◌, ◌≤◌, ◌<◌, length};
ghost use Rattle.rinex.specs.Tests.{slots_fit};
ghost use Rattle.row.specs.Lines.{HoldsMark};
ghost use Rattle.row.specs.Steps.{slot_fits, slot_columns};

use field::Unfit;
use field::read::mark;
use line::within::{blank_past, columns};
use value::printed_in;

// What a blank mark is held as.
const BLANK_MARK: u8 = 255;

// What a mark holds; 255 is a blank one.
pub fn mark_of(b: u8, top: u8) -> Result<u8, Unfit>
    ensures { HoldsMark top b result }
{
    Ok(mark(b, top)?.unwrap_or(BLANK_MARK))
}

// Whether the 16 columns of a slot are fit.
#[tactic(auto, using(value::proofs::Answered::printed_test, crate::proofs::Places::mark_test), unfolding(crate::specs::Steps::slot_fits))]
fn columns_fit(s: &[u8]) -> bool
    requires { length s.now ≡ 16 }
    ensures { result ≡ slot_fits s.now }
{
    let Ok(_) = printed_in(&s[..14]) else {
        return false;
    };
    let Ok(_) = mark_of(s[14], 7) else {
        return false;
    };
    let Ok(_) = mark_of(s[15], 9) else {
        return false;
    };
    true
}

// Whether the slot from column `a` on is fit. Past the line's end it is blank; one that the end cuts is copied.
fn slot_fits(line: &[u8], a: usize) -> bool
    requires { (1 ≤ a) × (a < 2 ^ 40) }
    ensures { result ≡ slot_fits (slot_columns a line.now) }
{
    let from = a - 1;
    let to = a + 15;
    if to <= line.len() {
        return columns_fit(&line[from..to]);
    }
    if line.len() <= from {
        return true;
    }
    let mut slot = [b' '; 16];
    columns(line, a, &mut slot);
    columns_fit(&slot)
}

// Whether the first `n` slots of a row are fit and nothing stands past them.
pub fn slots_fit(line: &[u8], n: usize) -> bool
    requires { n ≤ 64 }
    ensures { result ≡ slots_fit n 4 line.now }
{
    for i in 0..n {
        if !slot_fits(line, 4 + 16 * i) {
            return false;
        }
    }
    blank_past(line, 3 + 16 * n)
}
