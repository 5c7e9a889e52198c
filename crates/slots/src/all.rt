// A code of one system, over all rows.
ghost use Rattle.std.specs.Prelude.{◌≡◌, cond, map, ◌+◌, ◌/◌, ◌≤◌, eqb, length};
ghost use Rattle.std.proofs.lemmas.List.Edits.{sets};
ghost use Rattle.rinex.specs.Answers.{not_declared, kind, float};
ghost use Rattle.rinex.specs.Lent.{head_of, counts_of};
ghost use Rattle.rinex.specs.Promises.{Columned, Keeps};
ghost use Rattle.lent.specs.Parts.{tables_in};
ghost use Rattle.slot_answers.specs.Handed.{meant, column_of, told, column_meant};
ghost use Rattle.slot_answers.specs.AtPlace.{HeldSlots, slot_answer};
ghost use Rattle.slots.specs.InTables.{slots_before, column_from};

use crate::places::code_place;
use fits::tables::tables_fit;
use lent::{Rows, Tables};
use rinex::{Counts, Head};
use slot_answers::handed::{float_of, kind_of};
use slot_answers::room::has_room;
use slot_answers::values::answer_at;
use slot_answers::{Answer, Reply, Unanswered};
use systems::codes_of;

// A row of `n` codes, whose slots begin at place `at`: not declared, where it is of another system than the column.
fn answer_in(
    numbers: &[i64],
    states: &[u8],
    satellite: u16,
    at: usize,
    n: usize,
    system: usize,
    place: usize,
    code: u32,
) -> Answer
    requires { HeldSlots (at + n) numbers.now states.now }
    ensures { meant result ≡ cond (eqb (satellite / 100) system) (slot_answer numbers.now states.now at n place code) not_declared }
{
    if (satellite / 100) as usize != system {
        return Answer::NotDeclared;
    }
    answer_at(numbers, states, at, n, place, code)
}

// The answers of the first `count` rows; the code is at place `place` of the system's list. By index, since one list is read, two are written, and
// the place of the slots runs beside them: three iterators in one are no plainer.
fn fill(
    lengths: [usize; 7],
    rows: &Rows,
    count: usize,
    system: usize,
    place: usize,
    code: u32,
    kinds: &mut [u8],
    floats: &mut [f64],
)
    requires { ((count ≤ length rows.now.satellites.now) × HeldSlots (slots_before lengths rows.now.satellites.now count 0 0) rows.now.slots.numbers.now rows.now.slots.states.now) × ((count ≤ length kinds.old) × (count ≤ length floats.old)) }
    ensures kinds_after { kinds.new ≡ sets kinds.old 0 (map kind (column_from lengths rows.now.satellites.now rows.now.slots.numbers.now rows.now.slots.states.now system place code count 0 0)) }
    ensures floats_after { floats.new ≡ sets floats.old 0 (map float (column_from lengths rows.now.satellites.now rows.now.slots.numbers.now rows.now.slots.states.now system place code count 0 0)) }
{
    let numbers = rows.slots.numbers;
    let states = rows.slots.states;
    let mut at = 0;
    for j in 0..count {
        let satellite = rows.satellites[j];
        let n = codes_of(lengths, (satellite / 100) as usize);
        let a = answer_in(numbers, states, satellite, at, n, system, place, code);
        kinds[j] = kind_of(a);
        floats[j] = float_of(a);
        at += n;
    }
}

// The answers of all rows, from the first entry on, and how many they are.
fn answered(
    head: Head,
    counts: Counts,
    tables: &Tables,
    system: usize,
    code: u32,
    kinds: &mut [u8],
    floats: &mut [f64],
) -> Result<usize, Unanswered>
    ensures { Columned (head_of head) (counts_of counts) (tables_in tables.now) system code (column_of kinds.old floats.old) (column_of kinds.new floats.new) (column_meant result) }
{
    if !tables_fit(head, counts, tables) {
        return Err(Unanswered::NoText);
    }
    let rows = counts.rows;
    if !has_room(rows, kinds.len(), floats.len()) {
        return Err(Unanswered::NoRoom);
    }
    let lengths = head.lengths;
    let place = code_place(lengths, tables.codes, system, code);
    fill(
        lengths,
        &tables.rows,
        rows,
        system,
        place,
        code,
        kinds,
        floats,
    );
    Ok(rows)
}

// What `slot` answers for a code of one system, for all rows at once: its number, and its float.
pub fn column(
    head: Head,
    counts: Counts,
    tables: &Tables,
    system: usize,
    code: u32,
    kinds: &mut [u8],
    floats: &mut [f64],
) -> Reply
    ensures { Keeps told (Columned (head_of head) (counts_of counts) (tables_in tables.now) system code (column_of kinds.old floats.old) (column_of kinds.new floats.new)) result }
{
    Reply::from(answered(head, counts, tables, system, code, kinds, floats))
}
