// The lists of codes, 13 a line.
ghost use Rattle.std.specs.Prelude.{◌≡◌, true, ◌+◌, ◌^◌, ◌<◌, length};
ghost use Rattle.std.proofs.lemmas.List.Edits.{sets};
ghost use Rattle.rinex.specs.Fit.{list_fits, lists_fit};
ghost use Rattle.write_header.specs.Heading.{list_text, lists_text};

use code_list::in_line;
use put_line::put_line;
use spell_header::{list_line, next_line};

// The list of system `s`, of `n` codes, and the place behind it. None of its lines where it is empty.
fn put_list(letter: u8, s: usize, n: usize, codes: &[u32], out: &mut [u8], at: usize) -> usize
    requires { (s < 7) × ((list_fits letter codes.now s n ≡ true) × (at + length (list_text s n codes.now) < 2 ^ 64)) }
    ensures out_after { out.new ≡ sets out.old at (list_text s n codes.now) }
    ensures value { result ≡ at + length (list_text s n codes.now) }
{
    if n == 0 {
        return at;
    }
    let mut line = [b' '; 80];
    let first = 64 * s;
    let mut done = in_line(n);
    list_line(s, n, &codes[first..first + done], &mut line);
    let mut to = put_line(at, &line, out);
    // no count by one: as many codes as a line takes
    while done < n {
        let k = in_line(n - done);
        let next = first + done;
        next_line(&codes[next..next + k], &mut line);
        to = put_line(to, &line, out);
        done += k;
    }
    to
}

// The lists in the order G R E J C I S, and the place behind them.
pub fn put_lists(letter: u8, lengths: [usize; 7], codes: &[u32], out: &mut [u8], at: usize) -> usize
    requires { (lists_fit letter codes.now 0 lengths ≡ true) × (at + length (lists_text 0 lengths codes.now) < 2 ^ 64) }
    ensures out_after { out.new ≡ sets out.old at (lists_text 0 lengths codes.now) }
    ensures value { result ≡ at + length (lists_text 0 lengths codes.now) }
{
    let mut to = at;
    for (s, n) in lengths.iter().enumerate() {
        to = put_list(letter, s, *n, codes, out, to);
    }
    to
}
