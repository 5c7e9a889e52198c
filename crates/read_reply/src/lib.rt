// The reply of reading: what is told of an accepted text, or why a text is refused.
#![tactic(auto)]

ghost use Rattle.std.specs.Prelude.{◌≡◌};
ghost use Rattle.read_reply.specs.Replies.{refusing, taking};

use judge::whole::Whole;
use rinex::{Counts, Head};

// The head and the counts where the number is 0; else a refusal by number and line.
#[repr(C)]
#[derive(Clone, Copy)]
pub struct Reply {
    pub number: usize,
    pub line: usize,
    pub head: Head,
    pub counts: Counts,
}

// What is not said is 0.
pub fn refusal(number: usize, line: usize) -> Reply
    ensures { result ≡ refusing number line }
{
    Reply {
        number: number,
        line: line,
        head: Head {
            letter: 0,
            lengths: [0; 7],
            first: 0,
            time_system: 0,
            interval_state: 0,
            interval: 0,
            lines: 0,
        },
        counts: Counts {
            epochs: 0,
            rows: 0,
            slots: 0,
            carried: 0,
        },
    }
}

// What the judge has found of an accepted text, and what its header says.
pub fn acceptance(whole: Whole, head: fill::HeadRest) -> Reply
    ensures { result ≡ taking whole head }
{
    let c = whole.from.state;
    let lengths = c.lengths;
    Reply {
        number: 0,
        line: 0,
        head: Head {
            letter: c.letter,
            lengths,
            first: head.first,
            time_system: head.time_system,
            interval_state: u8::from(head.interval.is_some()),
            interval: head.interval.unwrap_or(0),
            lines: head.lines,
        },
        counts: whole.used,
    }
}
