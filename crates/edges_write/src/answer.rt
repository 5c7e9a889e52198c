// The answer to a call, held to the one that is due.
use crate::calls::place;
use cases::kept::are_kept;
use cases::words::{MISSING, nth};
use std::{fmt, io};
use write_reply::Reply;

// A reply as it came or is due, all of it: a refusal that tells a count is not the one that is due, so it is no enum.
#[derive(Clone, Copy, PartialEq, Eq)]
struct Outcome {
    number: usize,
    line: usize,
    count: usize,
}

impl fmt::Display for Outcome {
    fn fmt<W: fmt::Write>(&self, f: &mut fmt::Formatter<W>) -> fmt::Result {
        if self.number == 0 {
            write!(f, "written {}", self.count)
        } else {
            write!(f, "refused {}", self.number)
        }
    }
}

// The text stands at the place, and every other byte is as it was.
fn stands(out: &[u8], at: usize, text: &[u8]) -> bool {
    out.split_at_checked(at).is_some_and(|(before, rest)| {
        are_kept(before, 0) && rest.starts_with(text) && are_kept(rest, text.len())
    })
}

fn compared(rt: &impl Print, came: Outcome, due: Outcome, bytes: bool) -> io::Result<bool> {
    print!(rt; ": {came}")?;
    if came != due {
        println!(rt; " WRONG, due is {due}")?;
    } else if !bytes {
        println!(rt; " OTHER BYTES")?;
    } else {
        println!(rt; ", as due")?;
    }
    Ok(came == due && bytes)
}

// The text is due where the number that is due is 0; else no byte is another.
pub fn as_due(
    rt: &impl Print,
    r: &Reply,
    out: &[u8],
    text: &[u8],
    call: &[u8],
) -> io::Result<bool> {
    let came = Outcome {
        number: r.number,
        line: r.line,
        count: r.count,
    };
    let number = nth(call, 0).unwrap_or(MISSING);
    let (count, bytes) = if number == 0 {
        (text.len(), stands(out, place(call), text))
    } else {
        (0, are_kept(out, 0))
    };
    let due = Outcome {
        number,
        line: 0,
        count,
    };
    compared(rt, came, due, bytes)
}
