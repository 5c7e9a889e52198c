// What the lines before a line have settled, and what the line settles.
#![tactic(auto)]

ghost use Rattle.std.specs.Prelude.{◌≡◌};
ghost use Rattle.state.specs.Judge.{in_heading};

pub mod after;
pub mod fault;

use rinex::Counts;

// How many entries each lent table has room for.
#[derive(Clone, Copy)]
pub struct Room {
    pub codes: usize,
    pub epochs: usize,
    pub rows: usize,
    pub slots: usize,
    pub carried: usize,
}

// What line is due: the version line, a header record, a continuation of a list, an epoch record, a row, a line of an event.
#[derive(Clone, Copy, Debug, PartialEq, Eq)]
pub enum Stage {
    Version,
    Record,
    Continuation,
    Epoch,
    Row,
    Event,
}

impl Stage {
    // A line of the header is due.
    pub fn in_heading(self) -> bool
        ensures { result ≡ in_heading self }
    {
        matches!(self, Stage::Version | Stage::Record | Stage::Continuation)
    }
}

// What the lines before have settled.
#[derive(Clone, Copy)]
pub struct State {
    pub stage: Stage,
    // The system of the list that goes on.
    pub system: usize,
    // The codes, rows or lines that are left.
    pub left: usize,
    // The flag of the event, and whether one of its lines was MARKER NAME.
    pub flag: usize,
    pub marked: bool,
    pub letter: u8,
    // How many codes each system's list has.
    pub lengths: [usize; 7],
    // Whether TIME OF FIRST OBS and INTERVAL have come.
    pub first: bool,
    pub interval: bool,
    // The time of the last epoch of flag 0 or 1, if there was one.
    pub last: Option<u64>,
    pub used: Counts,
}
