// Sums over the lists, the epochs and the rows. They stop where the limit that is handed in is passed.
ghost use Rattle.std.specs.Prelude.{◌≡◌, cond, eqb, ℕ, ◌+◌, ◌≤◌, length, get_or};
ghost use Rattle.line.specs.Text.{longest};
ghost use Rattle.measure.specs.Size.{list_line_count, epochs_size, rows_size, Told};

use crate::widths::{entry, slots_width};
use lent::Rows;
use systems::codes_of;

// How many lines the lists have.
pub fn list_lines(lengths: [usize; 7]) -> usize
    requires { (length lengths ≡ 7) × ((y : ℕ) → get_or lengths y 0 ≤ 64) }
    ensures { (result ≡ list_line_count lengths) × (result ≤ 35) }
{
    let mut total = 0;
    for n in lengths {
        total += (n + 12) / 13;
    }
    total
}

// An epoch record and its LF.
pub fn record_size(clock_state: u8) -> usize
    ensures { (result ≡ cond (eqb clock_state 0) 36 57) × (result ≤ 57) }
{
    if clock_state == 0 { 36 } else { 57 }
}

// The first n epoch records, behind `before` bytes.
pub fn epochs_size(limit: usize, clock_states: &[u8], n: usize, before: usize) -> usize
    requires { (limit ≤ longest) × (before ≤ longest) }
    ensures told { Told limit (before + epochs_size clock_states.now n 0) result }
    ensures upper_bound { result ≤ longest + 2048 }
{
    let mut total = before;
    for e in 0..n {
        if limit < total {
            return total;
        }
        total += record_size(entry(clock_states, e, 0));
    }
    total
}

// The first n rows, behind `before` bytes.
pub fn rows_size(limit: usize, lengths: [usize; 7], rows: &Rows, n: usize, before: usize) -> usize
    requires { (length lengths ≡ 7) × (((y : ℕ) → get_or lengths y 0 ≤ 64) × ((limit ≤ longest) × (before ≤ longest))) }
    ensures { Told limit (before + rows_size lengths rows.now.satellites.now rows.now.slots.states.now rows.now.slots.losses.now rows.now.slots.strengths.now n 0 0) result }
{
    let mut total = before;
    let mut i = 0;
    for j in 0..n {
        if limit < total {
            return total;
        }
        let k = codes_of(lengths, entry(rows.satellites, j, 0) as usize / 100);
        total += slots_width(&rows.slots, k, i) + 4;
        i += k;
    }
    total
}
