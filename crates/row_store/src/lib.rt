// The slots of a fit row, put into the four tables of slots.
// The tables stay parameters of their own: a struct of `&mut` slices needs a clause for each that it is the one lent.
#![tactic(auto)]

ghost use Rattle.std.specs.Prelude.{◌≡◌, true, ◌^◌, ◌≤◌, ◌<◌, length};
ghost use Rattle.rinex.specs.Tests.{slots_fit, slot_of};
ghost use Rattle.row.specs.Steps.{slot_fits, slot_columns};
ghost use Rattle.row_store.specs.Lines.{Put};
ghost use Rattle.row_store.specs.Steps.{Stores, SlotStored, slot_in};

use line::within::columns;
use lists::store::put;
use row::mark_of;
use value::{held_state, value_number};

// One entry of each table.
fn put_entry(
    at: usize,
    number: i64,
    state: u8,
    loss: u8,
    strength: u8,
    numbers: &mut [i64],
    states: &mut [u8],
    losses: &mut [u8],
    strengths: &mut [u8],
)
    ensures { Stores at number state loss strength numbers.old numbers.new states.old states.new losses.old losses.new strengths.old strengths.new }
{
    put(numbers, at, number);
    put(states, at, state);
    put(losses, at, loss);
    put(strengths, at, strength);
}

// The slot that these 16 columns are. Inline, as the compiler had it of itself before it grew: reading takes a tenth less.
#[inline(always)]
fn put_columns(
    s: &[u8],
    at: usize,
    numbers: &mut [i64],
    states: &mut [u8],
    losses: &mut [u8],
    strengths: &mut [u8],
)
    requires { (length s.now ≡ 16) × (slot_fits s.now ≡ true) }
    ensures { SlotStored at (slot_in s.now) numbers.old numbers.new states.old states.new losses.old losses.new strengths.old strengths.new }
{
    let number = value_number(&s[..14]);
    let Ok(loss) = mark_of(s[14], 7) else {
        return;
    };
    let Ok(strength) = mark_of(s[15], 9) else {
        return;
    };
    let state = held_state(number);
    put_entry(
        at, number, state, loss, strength, numbers, states, losses, strengths,
    );
}

// The slot from column `a` on. Past the line's end it is blank; one that the end cuts is copied.
fn put_slot(
    line: &[u8],
    a: usize,
    at: usize,
    numbers: &mut [i64],
    states: &mut [u8],
    losses: &mut [u8],
    strengths: &mut [u8],
)
    requires { (1 ≤ a) × ((a < 2 ^ 40) × (slot_fits (slot_columns a line.now) ≡ true)) }
    ensures { SlotStored at (slot_of a line.now) numbers.old numbers.new states.old states.new losses.old losses.new strengths.old strengths.new }
{
    let from = a - 1;
    let to = a + 15;
    if to <= line.len() {
        put_columns(&line[from..to], at, numbers, states, losses, strengths);
        return;
    }
    if line.len() <= from {
        put_entry(at, 0, 0, 255, 255, numbers, states, losses, strengths);
        return;
    }
    let mut slot = [b' '; 16];
    columns(line, a, &mut slot);
    put_columns(&slot, at, numbers, states, losses, strengths);
}

// The slots of a fit row, from a place of the four tables on.
pub fn put_slots(
    line: &[u8],
    n: usize,
    at: usize,
    numbers: &mut [i64],
    states: &mut [u8],
    losses: &mut [u8],
    strengths: &mut [u8],
)
    requires { (n ≤ 64) × ((slots_fit n 4 line.now ≡ true) × (at < 2 ^ 40)) }
    ensures { Put line.now n at numbers.old numbers.new states.old states.new losses.old losses.new strengths.old strengths.new }
{
    for i in 0..n {
        put_slot(line, 4 + 16 * i, at + i, numbers, states, losses, strengths);
    }
}
