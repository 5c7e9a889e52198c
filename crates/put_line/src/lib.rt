// Lines, put into a lent buffer.
#![tactic(auto)]

ghost use Rattle.std.specs.Prelude.{◌≡◌, [], ◌∷◌, ◌++◌, ◌+◌, ◌^◌, ◌<◌, length};
ghost use Rattle.std.proofs.lemmas.List.Edits.{sets};
ghost use Rattle.line.specs.Text.{cut};

use line::within::cut_length;
use lists::store::put;

// How far a run of things has got: the first of them that is not yet taken (a slot, a carried byte), and the place behind what was put.
#[derive(Clone, Copy)]
pub struct Progress {
    pub from: usize,
    pub at: usize,
}

// A line and one LF behind it, in bytes that are one more.
fn copy_line(line: &[u8], out: &mut [u8])
    requires { length out.old ≡ length line.now + 1 }
    ensures { out.new ≡ line.now ++ (10 ∷ []) }
{
    let n = line.len();
    // By index: for the library's copy the archive would need a further function of C's.
    for i in 0..n {
        out[i] = line[i];
    }
    out[n] = 10;
}

// The same from a place on, where the bytes may end before the LF.
fn put_past(at: usize, line: &[u8], out: &mut [u8])
    requires { at + (length line.now + 1) < 2 ^ 64 }
    ensures { out.new ≡ sets out.old at (line.now ++ (10 ∷ [])) }
{
    for (i, b) in line.iter().enumerate() {
        put(out, at + i, *b);
    }
    put(out, at + line.len(), 10);
}

// A line from a place on, cut, and one LF behind it; the place behind that.
pub fn put_line(at: usize, line: &[u8], out: &mut [u8]) -> usize
    requires { at + (length (cut line.now) + 1) < 2 ^ 64 }
    ensures out_after { out.new ≡ sets out.old at (cut line.now ++ (10 ∷ [])) }
    ensures value { result ≡ at + (length (cut line.now) + 1) }
{
    let n = cut_length(line);
    let end = at + (n + 1);
    if end <= out.len() {
        copy_line(&line[..n], &mut out[at..end]);
        return end;
    }
    put_past(at, &line[..n], out);
    end
}
