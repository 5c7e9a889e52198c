// Room: how long a text may be, what a buffer has behind a place, and how much several lent buffers hold together.
#![tactic(auto)]

ghost use Rattle.std.specs.Prelude.{◌≡◌, ◌-◌, min};
ghost use Rattle.line.specs.Text;

use std::cmp::min;

// The most bytes that a text has.
pub fn longest() -> usize
    ensures { result ≡ Text.longest }
{
    1073741824
}

// The shorter of two lent buffers.
pub fn shorter(a: usize, b: usize) -> usize
    ensures { result ≡ min a b }
{
    min(a, b)
}

// What a buffer of `length` bytes has from a place on, up to the most that a text has. Past the end it is 0, and no normal text is empty.
pub fn room_behind(length: usize, at: usize) -> usize
    ensures { result ≡ min (length - at) Text.longest }
{
    shorter(length.saturating_sub(at), longest())
}

// Where a table lies in four lent buffers, its room is the shortest one's.
pub fn room_of_four(a: usize, b: usize, c: usize, d: usize) -> usize
    ensures { result ≡ min a (min b (min c d)) }
{
    shorter(shorter(a, b), shorter(c, d))
}

// The same of six. No twin: it calls the other, and of an array of lengths the clause would be a fold.
pub fn room_of_six(a: usize, b: usize, c: usize, d: usize, e: usize, f: usize) -> usize
    ensures { result ≡ min a (min b (min c (min d (min e f)))) }
{
    shorter(shorter(a, b), room_of_four(c, d, e, f))
}
