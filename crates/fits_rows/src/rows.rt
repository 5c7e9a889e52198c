// Rows and their slots.
ghost use Rattle.std.specs.Prelude.{◌≡◌, ◌+◌, ◌≤◌, ◌<◌, length};
ghost use Rattle.lists.specs.Maybe.{when};
ghost use Rattle.rinex.specs.Fit.{slot_fits, slots_fit, codes_of_row, row_fits, rows_fit};
ghost use Rattle.rinex.specs.Lent.{counts_of};
ghost use Rattle.lent.specs.Parts.{slots_in, rows_in, SlotsHold};

use fits_values::numbers::{is_mark, value_fits};
use lent::{Rows, SlotTables};
use rinex::Counts;
use systems::codes_of;

// Slot `i`.
fn slot_fits(slots: &SlotTables, i: usize) -> bool
    requires { SlotsHold (i + 1) slots.now }
    ensures { result ≡ slot_fits (slots_in slots.now) i }
{
    value_fits(slots.states[i], slots.numbers[i])
        && is_mark(slots.losses[i], 7)
        && is_mark(slots.strengths[i], 9)
}

// `k` slots from place `i` on. Inline, at no call for each row.
#[inline(always)]
#[tactic(auto, using(crate::proofs::Slotted::slots_stop, crate::proofs::Slotted::slots_more, crate::proofs::Slotted::slots_over))]
fn slots_fit(slots: &SlotTables, k: usize, i: usize) -> bool
    requires { SlotsHold (i + k) slots.now }
    ensures { result ≡ slots_fit (slots_in slots.now) k i }
{
    let slots = *slots;
    for at in i..i + k {
        if !slot_fits(&slots, at) {
            return false;
        }
    }
    true
}

// Row `j`, with its slots from place `i` on; the place behind them.
#[tactic(auto, unfolding(rinex::specs::Fit::row_fits))]
fn row_fits(lengths: [usize; 7], counts: Counts, rows: &Rows, j: usize, i: usize) -> Option<usize>
    requires { (j < length rows.now.satellites.now) × ((i ≤ counts.slots) × SlotsHold counts.slots rows.now.slots) }
    ensures { result ≡ when (row_fits lengths (counts_of counts) (rows_in rows.now) j i) (i + codes_of_row lengths (rows_in rows.now) j) }
{
    let satellite = rows.satellites[j];
    if 7 <= satellite / 100 || satellite % 100 == 0 {
        return None;
    }
    let k = codes_of(lengths, (satellite / 100) as usize);
    if k == 0 || counts.slots - i < k || !slots_fit(&rows.slots, k, i) {
        return None;
    }
    Some(i + k)
}

// `k` rows from place `j` on, with their slots from place `i` on; the place behind the slots. By itself: within a caller each way out of it costs every
// slot a third more.
#[inline(never)]
#[tactic(auto, using(crate::proofs::Slotted::rows_stop, crate::proofs::Slotted::rows_over))]
pub fn rows_fit(
    lengths: [usize; 7],
    counts: Counts,
    rows: &Rows,
    k: usize,
    j: usize,
    i: usize,
) -> Option<usize>
    requires { (j + k ≤ length rows.now.satellites.now) × ((i ≤ counts.slots) × SlotsHold counts.slots rows.now.slots) }
    ensures { result ≡ rows_fit lengths (counts_of counts) (rows_in rows.now) k j i }
{
    let mut slot = i;
    for row in j..j + k {
        slot = row_fits(lengths, counts, rows, row, slot)?;
    }
    Some(slot)
}
