// The first pass: a text is judged line by line, and nothing lent is changed.
#![tactic(auto)]

ghost use Rattle.std.specs.Prelude.{◌≡◌};

pub mod data;
pub mod heading;
pub mod reached;
pub mod whole;

use state::State;
use state::fault::LineFault;

// A place in the text, the number of the line there, and what is settled.
#[derive(Clone, Copy)]
pub struct Cursor {
    pub at: usize,
    pub line: usize,
    pub state: State,
}

impl Cursor {
    // The line at the cursor has this fault.
    fn refusal(self, fault: LineFault) -> Refusal
        ensures { result ≡ record { fault = fault; line = self.line } }
    {
        Refusal {
            fault,
            line: self.line,
        }
    }
}

// Why a text is refused, and at which line.
#[derive(Clone, Copy, Debug, PartialEq, Eq)]
pub struct Refusal {
    pub fault: LineFault,
    pub line: usize,
}
