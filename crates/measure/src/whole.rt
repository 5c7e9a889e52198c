// The whole text, and that of one epoch alone.
ghost use Rattle.std.specs.Prelude.{◌≡◌, cond, [], eqb, leb, ℕ, ◌+◌, ◌≤◌, ◌<◌, ◌^◌, length, get_or};
ghost use Rattle.line.specs.Text.{longest};
ghost use Rattle.rinex.specs.Lent.{head_of, counts_of, buffers};
ghost use Rattle.measure.specs.Size.{head_size, rows_size, text_size, Told};

use crate::sums::{epochs_size, list_lines, record_size, rows_size};
use lent::Rows;
use rinex::{Counts, Head};

// The header without its carried lines.
fn head_size(lengths: [usize; 7], interval_state: u8) -> usize
    requires { (length lengths ≡ 7) × ((y : ℕ) → get_or lengths y 0 ≤ 64) }
    ensures { (result ≡ head_size lengths interval_state) × (result ≤ 4000) }
{
    let always = 81 + 78 + 74 + 80 * list_lines(lengths);
    if interval_state == 0 {
        always
    } else {
        always + 69
    }
}

// How long the whole text is, or that it is past the limit.
pub fn text_size(
    limit: usize,
    head: Head,
    counts: Counts,
    clock_states: &[u8],
    rows: &Rows,
) -> usize
    requires { (length head.lengths ≡ 7) × (((y : ℕ) → get_or head.lengths y 0 ≤ 64) × (limit ≤ longest)) }
    ensures { Told limit (text_size (head_of head) (counts_of counts) (buffers [] [] [] [] [] [] clock_states.now rows.now.satellites.now rows.now.slots.numbers.now rows.now.slots.states.now rows.now.slots.losses.now rows.now.slots.strengths.now [])) result }
{
    if limit < counts.carried {
        return counts.carried;
    }
    let lengths = head.lengths;
    let first = head_size(lengths, head.interval_state) + counts.carried;
    if limit < first {
        return first;
    }
    let second = epochs_size(limit, clock_states, counts.epochs, first);
    if limit < second {
        return second;
    }
    rows_size(limit, lengths, rows, counts.rows, second)
}

// How long the text of one epoch alone is, whose lines have so many bytes, or that it is past the limit.
pub fn lone_size(
    limit: usize,
    lengths: [usize; 7],
    rows: &Rows,
    clock_state: u8,
    flag: u8,
    count: u16,
    lines: usize,
) -> usize
    requires { (length lengths ≡ 7) × (((y : ℕ) → get_or lengths y 0 ≤ 64) × ((lines + 57 < 2 ^ 64) × (limit ≤ longest))) }
    ensures { Told limit (cond (eqb clock_state 0) 36 57 + cond (leb flag 1) (rows_size lengths rows.now.satellites.now rows.now.slots.states.now rows.now.slots.losses.now rows.now.slots.strengths.now count 0 0) lines) result }
{
    let first = record_size(clock_state);
    if flag <= 1 {
        return rows_size(limit, lengths, rows, count as usize, first);
    }
    first + lines
}
