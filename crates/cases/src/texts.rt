// Texts, put together in a lent buffer. What doesn't fit is left out.
use crate::lines::lines_of;
use crate::words::{MISSING, first, nth, part};

fn put_byte(out: &mut [u8], at: usize, b: u8) -> usize {
    if at < out.len() {
        out[at] = b;
        return at + 1;
    }
    at
}

fn put(out: &mut [u8], at: usize, s: &[u8]) -> usize {
    let mut n = at;
    for b in s {
        n = put_byte(out, n, *b);
    }
    n
}

fn put_many(out: &mut [u8], at: usize, times: usize, b: u8) -> usize {
    let mut n = at;
    for _ in 0..times {
        n = put_byte(out, n, b);
    }
    n
}

pub fn byte_of(n: usize) -> u8 {
    u8::try_from(n).unwrap_or(0)
}

// One line of the script: `|` a line, `-` a part of a line, `~` a byte by its number, so many times.
pub fn put_entry(out: &mut [u8], at: usize, entry: &[u8]) -> usize {
    match entry {
        [b'|', line @ ..] => {
            let n = put(out, at, line);
            put_byte(out, n, b'\n')
        }
        [b'-', part @ ..] => put(out, at, part),
        [b'~', numbers @ ..] => {
            let times = nth(numbers, 0).unwrap_or(MISSING);
            let byte = nth(numbers, 1).unwrap_or(MISSING);
            put_many(out, at, times, byte_of(byte))
        }
        _ => at,
    }
}

// The line that a piece starts with: `[` and its letter.
fn opens(line: &[u8], letter: u8) -> bool {
    first(line) == b'[' && first(part(line, 1, line.len())) == letter
}

// The script behind the line that opens a piece; nothing where no line does.
fn behind_opening(script: &[u8], letter: u8) -> &[u8] {
    lines_of(script)
        .find(|line| opens(line.text, letter))
        .map_or(&[], |line| line.behind)
}

// The lines of a piece, up to `]`.
fn put_lines(out: &mut [u8], at: usize, piece: &[u8]) -> usize {
    let mut n = at;
    for line in lines_of(piece).take_while(|line| first(line.text) != b']') {
        n = put_entry(out, n, line.text);
    }
    n
}

// A piece by its letter, once, or as often as the number behind the letter says. It is looked for once.
fn put_piece(out: &mut [u8], at: usize, script: &[u8], entry: &[u8]) -> usize {
    let piece = behind_opening(script, first(part(entry, 1, entry.len())));
    let times = nth(entry, 0).filter(|times| *times < 1000).unwrap_or(1);
    let mut n = at;
    for _ in 0..times {
        n = put_lines(out, n, piece);
    }
    n
}

// What a line of the script says: `+` a piece, else an entry.
pub fn put_line(out: &mut [u8], at: usize, script: &[u8], line: &[u8]) -> usize {
    if first(line) == b'+' {
        return put_piece(out, at, script, line);
    }
    put_entry(out, at, line)
}
