// An answer of `read`, as it is due and as it came.
use cases::words::{MISSING, first, nth};
use std::fmt;

// A refusal by number and line, or the counts of an acceptance, whose number is 0. It is no enum, since what may not change is that a
// refusal shows as another than is due where it tells counts.
#[derive(Clone, Copy, Default, PartialEq, Eq)]
pub struct Outcome {
    pub number: usize,
    pub line: usize,
    pub codes: usize,
    pub epochs: usize,
    pub rows: usize,
    pub slots: usize,
    pub carried: usize,
}

// What a line of the script asks for: `!` a refusal's number and line, else the counts of an acceptance.
pub fn due(line: &[u8]) -> Outcome {
    let said = |k| nth(line, k).unwrap_or(MISSING);
    if first(line) == b'!' {
        return Outcome {
            number: said(0),
            line: said(1),
            ..Outcome::default()
        };
    }
    Outcome {
        codes: said(0),
        epochs: said(1),
        rows: said(2),
        slots: said(3),
        carried: said(4),
        ..Outcome::default()
    }
}

impl fmt::Display for Outcome {
    fn fmt<W: fmt::Write>(&self, f: &mut fmt::Formatter<W>) -> fmt::Result {
        let Outcome {
            number,
            line,
            codes,
            epochs,
            rows,
            slots,
            carried,
        } = *self;
        if number == 0 {
            write!(f, "accepted {codes} {epochs} {rows} {slots} {carried}")
        } else {
            write!(f, "{number} at line {line}")
        }
    }
}
