// What stands within a line: its columns, counted from 1, with blanks past its end.
ghost use Rattle.std.specs.Prelude.{◌≡◌, ℕ, ◌+◌, ◌≤◌, length, take, drop};
ghost use Rattle.lists.specs.Blank.{is_blank, Blank};
ghost use Rattle.line.specs.Text.{col, cols, past, cut};

use lists::is_blank;
use std::cmp::min;

// Column `a`.
pub fn column(line: &[u8], a: usize) -> u8
    ensures { result ≡ col a line.now }
{
    line.get(a.saturating_sub(1)).copied().unwrap_or(b' ')
}

// The columns from `a` on, as many as there is room for.
pub fn columns(line: &[u8], a: usize, out: &mut [u8])
    requires { 1 ≤ a }
    ensures { (b : ℕ) → b + 1 ≡ a + length out.old → out.new ≡ cols a b line.now }
{
    let start = min(a - 1, line.len());
    let rest = &line[start..];
    // One by one: where this is inlined the compiler knows how many there are, and calls nothing for them.
    for i in 0..out.len() {
        out[i] = rest.get(i).copied().unwrap_or(b' ');
    }
}

// Whether columns `a` to `b` are blank.
pub fn blank_columns(line: &[u8], a: usize, b: usize) -> bool
    requires { 1 ≤ a }
    ensures { result ≡ is_blank (cols a b line.now) }
{
    let from = a - 1;
    let end = min(b, line.len());
    end <= from || is_blank(&line[from..end])
}

// Whether the columns past column `a` are blank.
pub fn blank_past(line: &[u8], a: usize) -> bool
    ensures { result ≡ is_blank (past a line.now) }
{
    line.len() <= a || is_blank(&line[a..])
}

// A place from which on all is blank, by blocks of 4 from the end.
fn skip_blanks(line: &[u8]) -> usize
    ensures { (result ≤ length line.now) × Blank (drop result line.now) }
{
    let mut n = line.len();
    // No `for`: the place is what is asked for, and falls by 4 until the test fails.
    while line[..n].ends_with(b"    ") {
        n -= 4;
    }
    n
}

// The length of a line without its trailing blanks.
pub fn cut_length(line: &[u8]) -> usize
    ensures { (result ≤ length line.now) × (take result line.now ≡ cut line.now) }
{
    let n = skip_blanks(line);
    for i in (0..n).rev() {
        if line[i] != b' ' {
            return i + 1;
        }
    }
    0
}
