// Where slots end once trailing blanks are cut.
ghost use Rattle.std.specs.Prelude.{◌≡◌, ◌^◌, ◌≤◌, ◌<◌, get_or};
ghost use Rattle.measure.specs.Size.{slot_end, slots_width};

use lent::SlotTables;

fn slot_end(state: u8, loss: u8, strength: u8) -> usize
    ensures { result ≡ slot_end state loss strength }
{
    if strength != 255 {
        return 16;
    }
    if loss != 255 {
        return 15;
    }
    if state == 0 { 0 } else { 14 }
}

// An entry, and another value past the end.
pub fn entry<T: Copy>(s: &[T], i: usize, past: T) -> T
    ensures { result ≡ get_or s.now i past }
{
    s.get(i).copied().unwrap_or(past)
}

// From the last slot back to the first that is not blank.
pub fn slots_width(slots: &SlotTables, k: usize, i: usize) -> usize
    requires { (k ≤ 64) × (i < 2 ^ 40) }
    ensures value { result ≡ slots_width slots.now.states.now slots.now.losses.now slots.now.strengths.now k i }
    ensures upper_bound { result ≤ 1024 }
{
    for left in (0..k).rev() {
        let p = i + left;
        let end = slot_end(
            entry(slots.states, p, 0),
            entry(slots.losses, p, 0),
            entry(slots.strengths, p, 0),
        );
        if end != 0 {
            return 16 * left + end;
        }
    }
    0
}
