// Rows of observations: a satellite and its slots.
ghost use Rattle.std.specs.Prelude.{◌≡◌, ◌+◌, ◌*◌, length};
ghost use Rattle.std.proofs.lemmas.List.Edits.{sets};
ghost use Rattle.write_field.specs.Normal.{decimal_fits};
ghost use Rattle.rinex.specs.Normal.{slot_text};
ghost use Rattle.lent.specs.Parts.{slots_in};
ghost use Rattle.columns.specs.Given.{FitsIf};
ghost use Rattle.spell_data.specs.Slots.{slot_with, slots_text, row_columns, SlotsLie};

use columns::{mark_column, put_byte, put_fixed, put_given};
use lent::SlotTables;
use systems::letter_of;

pub fn slot_columns(number: i64, state: u8, loss: u8, strength: u8, out: &mut [u8])
    requires { (length out.old ≡ 16) × FitsIf state (decimal_fits 14 3 number) }
    ensures { out.new ≡ slot_text (slot_with number state loss strength) }
{
    put_given(out, 0, 14, 3, state, number);
    put_byte(out, 14, mark_column(loss));
    put_byte(out, 15, mark_column(strength));
}

// The n slots from a place of their tables on.
fn put_slots(n: usize, from: usize, slots: &SlotTables, out: &mut [u8])
    requires { (length out.old ≡ 3 + 16 * n) × SlotsLie n from (slots_in slots.now) }
    ensures { out.new ≡ sets out.old 3 (slots_text n from (slots_in slots.now)) }
{
    for i in 0..n {
        let k = from + i;
        let a = 3 + 16 * i;
        let e = a + 16;
        slot_columns(
            slots.numbers[k],
            slots.states[k],
            slots.losses[k],
            slots.strengths[k],
            &mut out[a..e],
        );
    }
}

pub fn row_columns(satellite: u16, n: usize, from: usize, slots: &SlotTables, out: &mut [u8])
    requires { (length out.old ≡ 3 + 16 * n) × SlotsLie n from (slots_in slots.now) }
    ensures { out.new ≡ row_columns satellite n from (slots_in slots.now) }
{
    put_byte(out, 0, letter_of((satellite / 100) as usize));
    put_fixed(out, 1, 2, (satellite % 100) as u64);
    put_slots(n, from, slots, out);
}
