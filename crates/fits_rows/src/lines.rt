// Carried lines: those of the header, and those of events.
ghost use Rattle.std.specs.Prelude.{◌≡◌, drop};
ghost use Rattle.line.specs.Text.{split, raw};
ghost use Rattle.find_line.specs.Promises.{LineEnds};
ghost use Rattle.rinex.specs.Fit.{is_held};
ghost use Rattle.fits_rows.specs.Carried.{label_fits, LinesRun};

use crate::Run;
use find_line::{Found, find, plain_end};
use label::Label;
use label::named::label;
use label::ranks::{is, is_barred, is_carried};
use line::within::{blank_past, cut_length};

// A line as it is held: of plain bytes, with its trailing blanks cut, and no byte past column 80.
fn is_held(line: &[u8]) -> bool
    ensures { result ≡ is_held (raw line.now) }
{
    plain_end(line, 0) == line.len() && cut_length(line) == line.len() && blank_past(line, 80)
}

// Whether a line of this label is carried, in an event or in the header.
fn label_fits(event: bool, k: Label) -> bool
    ensures { result ≡ label_fits event k }
{
    if event {
        !is(Label::Unknown, k) && !is_barred(k)
    } else {
        is_carried(k)
    }
}

// The line from a place up to its LF.
fn line_run(event: bool, text: &[u8], at: usize, end: usize) -> Option<Run>
    requires { LineEnds text.now at end }
    ensures { LinesRun event text.now 1 (split (drop at text.now)) result }
{
    let line = &text[at..end];
    let k = label(line);
    if !is_held(line) || !label_fits(event, k) {
        return None;
    }
    Some(Run {
        to: end + 1,
        marker: is(Label::MarkerName, k),
    })
}

// The line that begins at a place. One of more than 80 columns is not held.
fn next_line(event: bool, text: &[u8], at: usize) -> Option<Run>
    ensures { LinesRun event text.now 1 (split (drop at text.now)) result }
{
    match find(text, at) {
        Found::Ends(end) => line_run(event, text, at, end),
        Found::Over | Found::Faulty | Found::Long(_) => None,
    }
}

// `n` lines from a place of a run of bytes on.
pub fn lines_fit(event: bool, text: &[u8], at: usize, n: usize) -> Option<Run>
    ensures { LinesRun event text.now n (split (drop at text.now)) result }
{
    let mut run = Run {
        to: at,
        marker: false,
    };
    for _ in 0..n {
        let next = next_line(event, text, run.to)?;
        run = Run {
            to: next.to,
            marker: run.marker | next.marker,
        };
    }
    Some(run)
}
