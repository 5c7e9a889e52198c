// A whole text is judged: its header, then its data.
ghost use Rattle.std.specs.Prelude.{◌≡◌, ◌≤◌, length};
ghost use Rattle.line.specs.Text.{longest};
ghost use Rattle.state.specs.Judge.{no_codes};
ghost use Rattle.judge.specs.Step.{Sized, Judges};

use crate::data::judge_data;
use crate::heading::judge_header;
use crate::{Cursor, Refusal};
use rinex::Counts;
use state::Room;

// How many entries an accepted text uses, and the cursor behind its header.
#[derive(Clone, Copy)]
pub struct Whole {
    pub used: Counts,
    pub from: Cursor,
}

#[tactic(auto, using(crate::proofs::Verdicts::judges_no, crate::proofs::Verdicts::judges_late, crate::proofs::Verdicts::judges_yes))]
pub fn judge(text: &[u8], room: Room, table: &mut [u32]) -> Result<Whole, Refusal>
    requires { (length text.now ≤ longest) × ((table.old ≡ no_codes) × Sized room) }
    ensures { Judges room text.now table.new result }
{
    let from = judge_header(text, room, table)?;
    let used = judge_data(text, from, room)?;
    Ok(Whole { used, from })
}
