// Tables, cut to the room that the script gives them; whole where it gives none, or more than they have.
ghost use Rattle.std.specs.Prelude.{◌≤◌};

fn entries(n: Option<usize>, len: usize) -> usize
    ensures { result ≤ len }
{
    n.unwrap_or(len).min(len)
}

// A table to be written to.
pub fn cut<T>(s: &mut [T], n: Option<usize>) -> &mut [T] {
    let len = s.len();
    &mut s[..entries(n, len)]
}

// A table to be read.
pub fn lend<T>(s: &[T], n: Option<usize>) -> &[T] {
    &s[..entries(n, s.len())]
}
