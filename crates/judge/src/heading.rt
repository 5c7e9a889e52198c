// The header's lines are judged, from the first on.
ghost use Rattle.std.specs.Prelude.{◌≡◌, true, List, ◌∷◌, ℕ, ◌+◌, ◌≤◌, length, get_or, drop, OnOk};
ghost use Rattle.line.specs.Text.{Raw, Line, split};
ghost use Rattle.find_line.specs.Promises.{LineEnds, between};
ghost use Rattle.state.specs.Faults.{refusal_number, fault_number};
ghost use Rattle.state.specs.Judge.{in_heading, fault_at, next_at, table_at, ending_at, begin, no_codes};
ghost use Rattle.judge.specs.Step.{HeadSane, HeadFine, Stepped, Headed};
ghost use Rattle.rinex.specs.Refusals.{refused};

use crate::reached::reach;
use crate::{Cursor, Refusal};
use faults::{next_fault, record_fault, version_fault};
use rinex::Counts;
use state::after::{after_next, after_record, after_version};
use state::fault::LineFault;
use state::{Room, Stage, State};

// A list's codes are put into the table of codes as well.
#[tactic(auto, unfolding(state::specs::Judge::fault_at, state::specs::Judge::table_at))]
fn heading_fault(room: Room, c: State, table: &mut [u32], line: &[u8]) -> Result<(), LineFault>
    requires { HeadSane c table.old }
    ensures { ((seen : List ℕ) → fault_number result ≡ fault_at c.stage room c table.old seen line.now) × OnOk result (table.new ≡ table_at c.stage c line.now table.old) }
{
    match c.stage {
        Stage::Version => version_fault(line),
        Stage::Record => record_fault(room, c, table, line),
        _ => next_fault(room, c, table, line),
    }
}

// The state behind a header line without a fault.
#[tactic(auto, unfolding(state::specs::Judge::next_at))]
fn heading_next(c: State, line: &[u8]) -> State
    requires { ((in_heading c.stage ≡ true) × ((length c.lengths ≡ 7) × ((y : ℕ) → get_or c.lengths y 0 ≤ 64))) × HeadFine c line.now }
    ensures { result ≡ next_at c.stage c line.now }
{
    match c.stage {
        Stage::Version => after_version(c, line),
        Stage::Record => after_record(c, line),
        _ => after_next(c, line),
    }
}

impl Cursor {
    // The line ends before the place where its LF stands.
    fn heading_line(
        self,
        text: &[u8],
        end: usize,
        room: Room,
        table: &mut [u32],
    ) -> Result<Cursor, LineFault>
        requires { (LineEnds text.now self.at end × Line (between self.at end text.now)) × (HeadSane self.state table.old × ((self.line ≤ self.at + 1) × (self.state.used.carried ≤ self.at))) }
        ensures { (seen : List ℕ) (w : Raw) (ws : List Raw) → split (drop self.at text.now) ≡ w ∷ ws → Stepped room text.now self table.old table.new seen seen w ws result }
    {
        let line = &text[self.at..end];
        let c = self.state;
        heading_fault(room, c, table, line)?;
        Ok(Cursor {
            at: end + 1,
            line: self.line + 1,
            state: heading_next(c, line),
        })
    }

    // Over the line at the cursor.
    pub fn heading_step(
        self,
        text: &[u8],
        room: Room,
        table: &mut [u32],
    ) -> Result<Cursor, LineFault>
        requires { HeadSane self.state table.old × ((self.line ≤ self.at + 1) × (self.state.used.carried ≤ self.at)) }
        ensures { (seen : List ℕ) (w : Raw) (ws : List Raw) → split (drop self.at text.now) ≡ w ∷ ws → Stepped room text.now self table.old table.new seen seen w ws result }
    {
        let end = reach(text, self.at)?;
        self.heading_line(text, end, room, table)
    }
}

// The text ends before the header does.
#[tactic(auto, unfolding(state::specs::Judge::ending_at))]
fn heading_end(c: Cursor) -> LineFault
    requires { in_heading c.state.stage ≡ true }
    ensures { ending_at c.state.stage c.state c.line ≡ refused (refusal_number result) c.line }
{
    match c.state.stage {
        Stage::Version => LineFault::NoVersion,
        _ => LineFault::CutOff,
    }
}

// Nothing is read yet.
#[tactic(auto, unfolding(state::specs::Judge::begin))]
fn beginning() -> Cursor
    ensures { result ≡ record { at = 0; line = 1; state = begin } }
{
    Cursor {
        at: 0,
        line: 1,
        state: State {
            stage: Stage::Version,
            system: 0,
            left: 0,
            flag: 0,
            marked: false,
            letter: 0,
            lengths: [0; 7],
            first: false,
            interval: false,
            last: None,
            used: Counts {
                epochs: 0,
                rows: 0,
                slots: 0,
                carried: 0,
            },
        },
    }
}

// The cursor behind END OF HEADER, or a refusal.
pub fn judge_header(text: &[u8], room: Room, table: &mut [u32]) -> Result<Cursor, Refusal>
    requires { table.old ≡ no_codes }
    ensures { Headed room text.now table.new result }
{
    let mut c = beginning();
    // No `for`: where the next line begins is found at each. A `match`: with `map_err` and `?` in the loop the proof did not close.
    while c.state.stage.in_heading() {
        if text.len() <= c.at {
            return Err(c.refusal(heading_end(c)));
        }
        c = match c.heading_step(text, room, table) {
            Ok(next) => next,
            Err(fault) => return Err(c.refusal(fault)),
        };
    }
    Ok(c)
}
