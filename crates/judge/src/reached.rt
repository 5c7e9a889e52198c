// The line at a place: where it ends, or its fault of those that a line has by itself.
ghost use Rattle.judge.specs.Reached.{EndsAt, Reaches};

use find_line::{Found, find};
use state::fault::LineFault;

// The place of the line's LF, if it has no such fault.
pub fn reach(text: &[u8], at: usize) -> Result<usize, LineFault>
    ensures { Reaches text.now at result }
{
    match find(text, at) {
        Found::Ends(end) => Ok(end),
        Found::Long(_) => Err(LineFault::TooWide),
        Found::Faulty | Found::Over => Err(LineFault::OtherByte),
    }
}

// Where the line at a place ends, if there is one that refusals 1 and 2 spare.
pub fn line_end(text: &[u8], at: usize) -> usize
    ensures { EndsAt text.now at result }
{
    reach(text, at).unwrap_or(at)
}
