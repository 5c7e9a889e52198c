// A line of the script: its first byte, its parts, and the numbers in it.

// What stands for a number that is not there, where there has to be one: more than any buffer has.
pub const MISSING: usize = 1000000;

// The bytes from a place up to another; none where they are no part.
pub fn part(s: &[u8], from: usize, to: usize) -> &[u8] {
    s.get(from..to).unwrap_or(&[])
}

pub fn first(line: &[u8]) -> u8 {
    line.first().copied().unwrap_or(b' ')
}

// A digit more; none that leads past the greatest number.
fn longer(n: usize, digit: u8) -> usize {
    n.checked_mul(10)
        .and_then(|tens| tens.checked_add(usize::from(digit.saturating_sub(b'0'))))
        .unwrap_or(n)
}

fn number(digits: &[u8]) -> usize {
    digits.iter().fold(0, |n, digit| longer(n, *digit))
}

// The number at place k of a line's numbers, counted from 0.
pub fn nth(line: &[u8], k: usize) -> Option<usize> {
    line.split(|b| !b.is_ascii_digit())
        .filter(|digits| !digits.is_empty())
        .nth(k)
        .map(number)
}
