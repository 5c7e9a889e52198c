// Reads an observation file: a text is judged first, and only an accepted one is put into the lent tables.
// The tables stay parameters of their own: a struct of `&mut` slices needs a clause for each that it is the one lent.
#![tactic(auto)]

ghost use Rattle.rinex.specs.Lent.{buffers};
ghost use Rattle.reader.specs.Reading.{Reads};

use fill::tables::fill_tables;
use judge::whole::judge;
use lent_room::{room_of_four, room_of_six};
use read_reply::{Reply, acceptance, refusal};
use state::Room;

// Any bytes. `rinex/specs/Promises.antt` has the promise, and `rinex/specs/Theorems.antt` what follows from it: a text within the limit is
// accepted exactly when some file that it spells fits the lent room (Agree), no text is for two files (OneFile), the earliest faulty line
// is told and in it the lowest number (Why), more room changes no answer but 16 (MoreLent). `proofs/Settled.antt`: one reply and one
// afterwards for every input; `proofs/MoreRoom.antt`: MoreLent of what `read` ensures.
pub fn read(
    text: &[u8],
    codes: &mut [u32],
    times: &mut [u64],
    time_states: &mut [u8],
    flags: &mut [u8],
    tallies: &mut [u16],
    clocks: &mut [i64],
    clock_states: &mut [u8],
    satellites: &mut [u16],
    numbers: &mut [i64],
    states: &mut [u8],
    losses: &mut [u8],
    strengths: &mut [u8],
    carried: &mut [u8],
) -> Reply
    ensures { Reads text.now (buffers codes.old times.old time_states.old flags.old tallies.old clocks.old clock_states.old satellites.old numbers.old states.old losses.old strengths.old carried.old) (buffers codes.new times.new time_states.new flags.new tallies.new clocks.new clock_states.new satellites.new numbers.new states.new losses.new strengths.new carried.new) result }
{
    if lent_room::longest() < text.len() {
        return refusal(17, 0);
    }
    let room = Room {
        codes: codes.len(),
        epochs: room_of_six(
            times.len(),
            time_states.len(),
            flags.len(),
            tallies.len(),
            clocks.len(),
            clock_states.len(),
        ),
        rows: satellites.len(),
        slots: room_of_four(numbers.len(), states.len(), losses.len(), strengths.len()),
        carried: carried.len(),
    };
    let mut table = [0u32; 448];
    let whole = match judge(text, room, &mut table) {
        Ok(whole) => whole,
        Err(e) => return refusal(e.fault.number(), e.line),
    };
    let head = fill_tables(
        text,
        whole.from,
        &table,
        codes,
        times,
        time_states,
        flags,
        tallies,
        clocks,
        clock_states,
        satellites,
        numbers,
        states,
        losses,
        strengths,
        carried,
    );
    acceptance(whole, head)
}
