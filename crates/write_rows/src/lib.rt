// Puts rows of observations into a lent buffer.
#![tactic(auto)]

ghost use Rattle.std.specs.Prelude.{◌≡◌, [], ◌∷◌, ◌++◌, ◌+◌, ◌*◌, ◌^◌, ◌<◌, length};
ghost use Rattle.std.proofs.lemmas.List.Edits.{sets};
ghost use Rattle.line.specs.Text.{cut};
ghost use Rattle.rinex.specs.Tables.{all_slots};
ghost use Rattle.rinex.specs.Held.{rows_at};
ghost use Rattle.lent.specs.Parts.{rows_in, slots_in};
ghost use Rattle.spell_data.specs.Slots.{row_columns, SlotsLie};
ghost use Rattle.write_rows.specs.Rows.{rows_text, RowsReady};

use lent::{Rows, SlotTables};
use put_line::{Progress, put_line};
use spell_data::row::row_columns;
use systems::codes_of;

// The line of a row with n slots; the slot and the place behind it. Its columns are put into `line` first.
fn put_row(
    satellite: u16,
    n: usize,
    from: usize,
    slots: &SlotTables,
    line: &mut [u8],
    out: &mut [u8],
    at: usize,
) -> Progress
    requires { (length line.old ≡ 3 + 16 * n) × (SlotsLie n from (slots_in slots.now) × (at + (length (cut (row_columns satellite n from (slots_in slots.now))) + 1) < 2 ^ 64)) }
    ensures out_after { out.new ≡ sets out.old at (cut (row_columns satellite n from (slots_in slots.now)) ++ (10 ∷ [])) }
    ensures at_value { (result.at ≡ at + (length (cut (row_columns satellite n from (slots_in slots.now))) + 1)) × (result.from ≡ from + n) }
{
    row_columns(satellite, n, from, slots, line);
    let end = put_line(at, line, out);
    Progress {
        from: from + n,
        at: end,
    }
}

// `k` rows from row `j` on, with their slots from place `i` on.
pub fn put_rows(
    lengths: [usize; 7],
    rows: &Rows,
    k: usize,
    j: usize,
    i: usize,
    out: &mut [u8],
    at: usize,
) -> Progress
    requires { RowsReady lengths (rows_in rows.now) k j i × (at + length (rows_text lengths (rows_in rows.now) k j i) < 2 ^ 64) }
    ensures out_after { out.new ≡ sets out.old at (rows_text lengths (rows_in rows.now) k j i) }
    ensures at_value { (result.at ≡ at + length (rows_text lengths (rows_in rows.now) k j i)) × (result.from ≡ i + length (all_slots (rows_at lengths (rows_in rows.now) k j i))) }
{
    let mut line = [b' '; 1027];
    let mut slot = i;
    let mut to = at;
    for row in j..j + k {
        let satellite = rows.satellites[row];
        let n = codes_of(lengths, (satellite / 100) as usize);
        let w = 3 + 16 * n;
        let next = put_row(satellite, n, slot, &rows.slots, &mut line[..w], out, to);
        slot = next.from;
        to = next.at;
    }
    Progress { from: slot, at: to }
}
