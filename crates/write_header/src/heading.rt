// The whole header.
ghost use Rattle.std.specs.Prelude.{◌≡◌, true, ℕ, Some, ◌+◌, ◌^◌, ◌<◌, pos, length, drop};
ghost use Rattle.std.proofs.lemmas.List.Edits.{sets};
ghost use Rattle.write_field.specs.Normal.{decimal_fits};
ghost use Rattle.line.specs.Text.{split};
ghost use Rattle.rinex.specs.Fit.{head_fits, lists_fit};
ghost use Rattle.rinex.specs.Lent.{head_of};
ghost use Rattle.write_header.specs.Heading.{interval_text, top_text, head_text, HeadReady};

use crate::code_lists::put_lists;
use put_line::{Progress, put_line};
use rinex::Head;
use spell_header::{end_line, first_line, interval_line, version_line};
use write_lines::put_lines;

// The line of the interval, if it is held, and the place behind it.
fn put_interval(interval: Option<u64>, out: &mut [u8], at: usize) -> usize
    requires { ((n : ℕ) → interval ≡ Some n → decimal_fits 10 3 (pos n) ≡ true) × (at + length (interval_text interval) < 2 ^ 64) }
    ensures out_after { out.new ≡ sets out.old at (interval_text interval) }
    ensures value { result ≡ at + length (interval_text interval) }
{
    let Some(n) = interval else {
        return at;
    };
    let mut line = [b' '; 80];
    interval_line(n, &mut line);
    put_line(at, &line, out)
}

// The lines before those that are carried, and the place behind them.
fn put_top(head: Head, codes: &[u32], out: &mut [u8], at: usize) -> usize
    requires { (head_fits (head_of head) ≡ true) × ((lists_fit head.letter codes.now 0 head.lengths ≡ true) × (at + length (top_text (head_of head) codes.now) < 2 ^ 64)) }
    ensures out_after { out.new ≡ sets out.old at (top_text (head_of head) codes.now) }
    ensures value { result ≡ at + length (top_text (head_of head) codes.now) }
{
    let mut line = [b' '; 80];
    version_line(head.letter, &mut line);
    let second = put_line(at, &line, out);
    let behind = put_lists(head.letter, head.lengths, codes, out, second);
    first_line(head.first, head.time_system, &mut line);
    let to = put_line(behind, &line, out);
    let interval = (head.interval_state != 0).then_some(head.interval);
    put_interval(interval, out, to)
}

// The header, whose lines are the first that are carried.
pub fn put_header(head: Head, codes: &[u32], carried: &[u8], out: &mut [u8], at: usize) -> Progress
    requires { HeadReady (head_of head) codes.now (split carried.now) × (at + length (head_text (head_of head) codes.now (split carried.now)) < 2 ^ 64) }
    ensures out_after { out.new ≡ sets out.old at (head_text (head_of head) codes.now (split carried.now)) }
    ensures at_value { (result.at ≡ at + length (head_text (head_of head) codes.now (split carried.now))) × (split (drop result.from carried.now) ≡ drop head.lines (split carried.now)) }
{
    let top = put_top(head, codes, out, at);
    let lines = put_lines(carried, 0, head.lines, out, top);
    let mut line = [b' '; 80];
    end_line(&mut line);
    let end = put_line(lines.at, &line, out);
    Progress {
        from: lines.from,
        at: end,
    }
}
