// The summary of an input: what `summary` writes. `rinex/specs/Summary.antt` has the promise.
#![tactic(auto)]

mod count;

ghost use Rattle.summarize.specs.Summarizes.{Summarizes};

use count::below;
use summary_text::{SummaryText, accepted, refused, too_long};

// Any bytes. `proofs/Settled.antt`: one answer for every input.
#[tactic(auto, using(crate::proofs::Told::long_told))]
pub fn summarize(text: &[u8]) -> SummaryText
    ensures { Summarizes text.now result }
{
    if 32768 < text.len() {
        return too_long();
    }
    let mut codes = [0u32; 448];
    let mut times = [0u64; 256];
    let mut time_states = [0u8; 256];
    let mut flags = [0u8; 256];
    let mut tallies = [0u16; 256];
    let mut clocks = [0i64; 256];
    let mut clock_states = [0u8; 256];
    let mut satellites = [0u16; 512];
    let mut numbers = [0i64; 2048];
    let mut states = [0u8; 2048];
    let mut losses = [0u8; 2048];
    let mut strengths = [0u8; 2048];
    let mut carried = [0u8; 4096];
    let r = reader::read(
        text,
        &mut codes,
        &mut times,
        &mut time_states,
        &mut flags,
        &mut tallies,
        &mut clocks,
        &mut clock_states,
        &mut satellites,
        &mut numbers,
        &mut states,
        &mut losses,
        &mut strengths,
        &mut carried,
    );
    if r.number != 0 {
        return refused(r.number, r.line);
    }
    let n = r.counts;
    let epochs = below(2, n.epochs, &flags);
    let blank = below(1, n.slots, &states);
    accepted(epochs, n.epochs - epochs, n.rows, n.slots, blank)
}
