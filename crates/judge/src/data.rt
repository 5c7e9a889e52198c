// The data's lines are judged, from the first on.
ghost use Rattle.std.specs.Prelude.{◌≡◌, true, false, List, ◌∷◌, ℕ, ◌+◌, ◌≤◌, length, drop};
ghost use Rattle.line.specs.Text.{Raw, Line, split};
ghost use Rattle.find_line.specs.Promises.{LineEnds, between};
ghost use Rattle.rinex.specs.Tests.{satellite_fits};
ghost use Rattle.state.specs.declared.Stage.TheVariants as stages;
ghost use Rattle.state.specs.Faults.{fault_number};
ghost use Rattle.state.specs.Judge.{in_heading, fault_at, next_at, seen_at, judged, none_seen, ending_at};
ghost use Rattle.judge.specs.Step.{DataSane, Roomy, Sized, Stepped, JudgedAs};

use crate::reached::reach;
use crate::{Cursor, Refusal};
use faults::{epoch_fault, line_fault, row_fault};
use rinex::Counts;
use satellite::{name_of, number_at};
use state::after::{after_epoch, after_line, after_row};
use state::fault::LineFault;
use state::{Room, Stage, State};

#[tactic(auto, unfolding(state::specs::Judge::fault_at))]
fn data_fault(room: Room, c: State, seen: &[usize], line: &[u8]) -> Result<(), LineFault>
    requires { DataSane c × (length seen.now ≡ 700) }
    ensures { (table : List ℕ) → fault_number result ≡ fault_at c.stage room c table seen.now line.now }
{
    match c.stage {
        Stage::Epoch => epoch_fault(room, c, line),
        Stage::Row => row_fault(room, c, seen, line),
        _ => line_fault(room, c, line),
    }
}

// The state behind a data line without a fault.
#[tactic(auto, unfolding(state::specs::Judge::next_at))]
pub fn data_next(c: State, line: &[u8]) -> State
    requires { DataSane c × Roomy c line.now }
    ensures { result ≡ next_at c.stage c line.now }
{
    match c.stage {
        Stage::Epoch => after_epoch(c, line),
        Stage::Row => after_row(c, line),
        _ => after_line(c, line),
    }
}

// The satellite of a row stands in this epoch.
#[tactic(auto, unfolding(state::specs::Judge::seen_at))]
fn stamp(c: State, seen: &mut [usize], line: &[u8])
    requires { (c.stage ≡ stages.Row → satellite_fits line.now ≡ true) × (length seen.old ≡ 700) }
    ensures { seen.new ≡ seen_at c.stage c line.now seen.old }
{
    if c.stage == Stage::Row {
        let name = name_of(systems::system_at(line), number_at(line));
        if name < seen.len() {
            seen[name] = c.used.epochs;
        }
    }
}

impl Cursor {
    // The line ends before the place where its LF stands. Beside `heading_line`, and no one function: each lends another table to be written, and closures
    // would have to promise what both contracts say.
    fn data_line(
        self,
        text: &[u8],
        end: usize,
        room: Room,
        seen: &mut [usize],
    ) -> Result<Cursor, LineFault>
        requires { (LineEnds text.now self.at end × Line (between self.at end text.now)) × ((DataSane self.state × (length seen.old ≡ 700)) × ((self.line ≤ self.at + 1) × Sized room)) }
        ensures { (table : List ℕ) (w : Raw) (ws : List Raw) → split (drop self.at text.now) ≡ w ∷ ws → Stepped room text.now self table table seen.old seen.new w ws result }
    {
        let line = &text[self.at..end];
        let c = self.state;
        data_fault(room, c, seen, line)?;
        stamp(c, seen, line);
        Ok(Cursor {
            at: end + 1,
            line: self.line + 1,
            state: data_next(c, line),
        })
    }

    // Over the line at the cursor.
    pub fn data_step(self, text: &[u8], room: Room, seen: &mut [usize]) -> Result<Cursor, LineFault>
        requires { (DataSane self.state × (length seen.old ≡ 700)) × ((self.line ≤ self.at + 1) × Sized room) }
        ensures { (table : List ℕ) (w : Raw) (ws : List Raw) → split (drop self.at text.now) ≡ w ∷ ws → Stepped room text.now self table table seen.old seen.new w ws result }
    {
        let end = reach(text, self.at)?;
        self.data_line(text, end, room, seen)
    }
}

// The text ends: accepted where an epoch record is due.
#[tactic(auto, unfolding(state::specs::Judge::ending_at))]
fn data_end(c: Cursor) -> Result<Counts, Refusal>
    requires { in_heading c.state.stage ≡ false }
    ensures { JudgedAs result (ending_at c.state.stage c.state c.line) }
{
    match c.state.stage {
        Stage::Epoch => Ok(c.state.used),
        _ => Err(c.refusal(LineFault::CutOff)),
    }
}

// The data's lines, under what the header has settled: how many entries they use, or a refusal.
pub fn judge_data(text: &[u8], from: Cursor, room: Room) -> Result<Counts, Refusal>
    requires { (DataSane from.state × (from.at ≤ length text.now)) × ((from.line ≤ from.at + 1) × Sized room) }
    ensures { (table : List ℕ) → JudgedAs result (judged room from.state table none_seen from.line (split (drop from.at text.now))) }
{
    let mut seen = [0usize; 700];
    let mut c = from;
    // No `for`: where the next line begins is found at each. A `match`: with `map_err` and `?` in the loop the proof did not close.
    while c.at < text.len() {
        c = match c.data_step(text, room, &mut seen) {
            Ok(next) => next,
            Err(fault) => return Err(c.refusal(fault)),
        };
    }
    data_end(c)
}
