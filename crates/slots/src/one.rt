// One slot.
ghost use Rattle.rinex.specs.Lent.{head_of, counts_of};
ghost use Rattle.rinex.specs.Promises.{Slotted};
ghost use Rattle.lent.specs.Parts.{tables_in};
ghost use Rattle.slot_answers.specs.Handed.{meant_of};

use crate::places::{code_place, slots_before};
use fits::tables::tables_fit;
use lent::Tables;
use rinex::{Counts, Head};
use slot_answers::values::answer_at;
use slot_answers::{Answer, Unspelled};
use systems::codes_of;

// The slot of a row and a code.
pub fn slot(
    head: Head,
    counts: Counts,
    tables: &Tables,
    row: usize,
    code: u32,
) -> Result<Answer, Unspelled>
    ensures { Slotted (head_of head) (counts_of counts) (tables_in tables.now) row code (meant_of result) }
{
    if !tables_fit(head, counts, tables) {
        return Err(Unspelled);
    }
    if counts.rows <= row {
        return Ok(Answer::NoRow);
    }
    let lengths = head.lengths;
    let rows = &tables.rows;
    let numbers = rows.slots.numbers;
    let states = rows.slots.states;
    let at = slots_before(lengths, rows.satellites, row);
    let system = (rows.satellites[row] / 100) as usize;
    let n = codes_of(lengths, system);
    let place = code_place(lengths, tables.codes, system, code);
    Ok(answer_at(numbers, states, at, n, place, code))
}
