// Puts carried lines into a lent buffer, as they stand.
#![tactic(auto)]

ghost use Rattle.std.specs.Prelude.{◌≡◌, true, ◌+◌, ◌^◌, ◌<◌, length, drop};
ghost use Rattle.std.proofs.lemmas.List.Edits.{sets};
ghost use Rattle.line.specs.Text.{split};
ghost use Rattle.write_lines.specs.Lines.{are_held, lines_text};

use find_line::{Found, find};
use put_line::{Progress, put_line};

// `n` lines of a text, from a place on.
pub fn put_lines(text: &[u8], from: usize, n: usize, out: &mut [u8], at: usize) -> Progress
    requires { (are_held n (split (drop from text.now)) ≡ true) × (at + length (lines_text n (split (drop from text.now))) < 2 ^ 64) }
    ensures out_after { out.new ≡ sets out.old at (lines_text n (split (drop from text.now))) }
    ensures at_value { (result.at ≡ at + length (lines_text n (split (drop from text.now)))) × (split (drop result.from text.now) ≡ drop n (split (drop from text.now))) }
{
    let mut i = from;
    let mut to = at;
    for _ in 0..n {
        let Found::Ends(end) = find(text, i) else {
            return Progress { from: i, at: to };
        };
        to = put_line(to, &text[i..end], out);
        i = end + 1;
    }
    Progress { from: i, at: to }
}
