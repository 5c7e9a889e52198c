// The lines of a script.
ghost use Rattle.std.specs.Prelude.{◌≤◌, length};
ghost use Rattle.std.specs.Iterator.{at_most};

use std::io;

// A line without its LF, and the script behind it.
#[derive(Clone, Copy)]
pub struct ScriptLine<'a> {
    pub text: &'a [u8],
    pub behind: &'a [u8],
}

#[derive(Drop)]
pub struct Lines<'a> {
    rest: &'a [u8],
}

pub fn lines_of(script: &[u8]) -> Lines<'_> {
    Lines { rest: script }
}

// Where the first line ends: at its LF, or with the script.
fn first_end(script: &[u8]) -> usize
    ensures { result ≤ length script.now }
{
    script
        .iter()
        .position(|b| *b == b'\n')
        .unwrap_or(script.len())
}

impl<'a> Iterator for Lines<'a> {
    type Item = ScriptLine<'a>;

    ghost remaining = { λ s. at_most (length s.rest.now) };

    fn next(&mut self) -> Option<ScriptLine<'a>> {
        if self.rest.is_empty() {
            return None;
        }
        let end = first_end(self.rest);
        let text = &self.rest[..end];
        self.rest = self.rest.get(end + 1..).unwrap_or(&[]);
        Some(ScriptLine {
            text,
            behind: self.rest,
        })
    }
}

// Tells a line that no script has.
pub fn strange(rt: &impl Print, line: &[u8]) -> io::Result<()> {
    print!(rt; "STRANGE ")?;
    rt.write_all(line)?;
    println!(rt)
}
