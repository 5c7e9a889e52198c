// The text of a summary, of three kinds, put together line by line.
#![tactic(auto)]

ghost use Rattle.std.specs.Prelude.{◌≡◌, ◌+◌, ◌≤◌, length};
ghost use Rattle.std.proofs.lemmas.List.Edits.{sets};
ghost use Rattle.rinex.specs.Summary.{tally_text, refused_text, too_long_text};
ghost use Rattle.summary_text.specs.Said.{Says, numbered};

use columns::{put_byte, put_bytes, put_whole};
use write_field::count;

// The summary is the first bytes, as many as `size` says; those behind are 0. An array and its length, for it is an answer of no fixed length and
// there is no heap (a project rule).
#[derive(Clone, Copy)]
pub struct SummaryText {
    pub bytes: [u8; 160],
    pub size: usize,
}

// A name and a number, from a place on; the place behind their line.
fn put_number(name: &[u8], n: usize, out: &mut [u8], at: usize) -> usize
    requires { at + (length name.now + 21) ≤ length out.old }
    ensures out_after { out.new ≡ sets out.old at (numbered name.now n) }
    ensures value { result ≡ at + length (numbered name.now n) }
    ensures upper_bound { result ≤ at + (length name.now + 21) }
{
    put_bytes(out, at, name);
    let from = at + name.len();
    let w = count(n as u64);
    put_whole(out, from, w, n as u64);
    put_byte(out, from + w, b'\n');
    from + w + 1
}

pub fn too_long() -> SummaryText
    ensures { Says too_long_text result }
{
    let mut bytes = [0; 160];
    put_bytes(&mut bytes, 0, b"result=toolong\n");
    SummaryText {
        bytes: bytes,
        size: 15,
    }
}

pub fn refused(number: usize, line: usize) -> SummaryText
    ensures { Says (refused_text number line) result }
{
    let mut bytes = [0; 160];
    put_bytes(&mut bytes, 0, b"result=refused\n");
    let at = put_number(b"number=", number, &mut bytes, 15);
    let size = put_number(b"line=", line, &mut bytes, at);
    SummaryText {
        bytes: bytes,
        size: size,
    }
}

pub fn accepted(
    epochs: usize,
    events: usize,
    rows: usize,
    slots: usize,
    blank: usize,
) -> SummaryText
    ensures { Says (tally_text epochs events rows slots blank) result }
{
    let mut bytes = [0; 160];
    put_bytes(&mut bytes, 0, b"result=accepted\n");
    let at_events = put_number(b"epochs=", epochs, &mut bytes, 16);
    let at_rows = put_number(b"events=", events, &mut bytes, at_events);
    let at_slots = put_number(b"rows=", rows, &mut bytes, at_rows);
    let at_blank = put_number(b"slots=", slots, &mut bytes, at_slots);
    let size = put_number(b"blank=", blank, &mut bytes, at_blank);
    SummaryText {
        bytes: bytes,
        size: size,
    }
}
