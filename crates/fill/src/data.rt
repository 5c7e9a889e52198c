// The lines of accepted data.
// The tables stay parameters of their own: a struct of `&mut` slices needs a clause for each that it is the one lent.
ghost use Rattle.std.specs.Prelude.{◌≡◌, List, ℕ, drop};
ghost use Rattle.line.specs.Text.{split};
ghost use Rattle.judge.specs.Step.{Runs};
ghost use Rattle.fill.specs.Fill.{put_at, filled_from};
ghost use Rattle.rinex.specs.Lent.{buffers};
ghost use Rattle.fill.specs.Filling.{Puttable};

use fill_entries::{put_epoch, put_row};
use judge::Cursor;
use judge::data::data_next;
use judge::reached::line_end;
use put_line::put_line;
use state::{Stage, State};

// The entries of a data line, by its stage.
fn fill_line(
    c: State,
    line: &[u8],
    times: &mut [u64],
    time_states: &mut [u8],
    flags: &mut [u8],
    tallies: &mut [u16],
    clocks: &mut [i64],
    clock_states: &mut [u8],
    satellites: &mut [u16],
    numbers: &mut [i64],
    states: &mut [u8],
    losses: &mut [u8],
    strengths: &mut [u8],
    carried: &mut [u8],
)
    requires { Puttable c line.now }
    ensures { (codes : List ℕ) → buffers codes times.new time_states.new flags.new tallies.new clocks.new clock_states.new satellites.new numbers.new states.new losses.new strengths.new carried.new ≡ put_at c.stage c line.now (buffers codes times.old time_states.old flags.old tallies.old clocks.old clock_states.old satellites.old numbers.old states.old losses.old strengths.old carried.old) }
{
    match c.stage {
        Stage::Epoch => put_epoch(
            c,
            line,
            times,
            time_states,
            flags,
            tallies,
            clocks,
            clock_states,
        ),
        Stage::Row => put_row(c, line, satellites, numbers, states, losses, strengths),
        _ => {
            put_line(c.used.carried, line, carried);
        }
    }
}

// The data's lines, which were accepted.
pub fn fill_data(
    text: &[u8],
    from: Cursor,
    times: &mut [u64],
    time_states: &mut [u8],
    flags: &mut [u8],
    tallies: &mut [u16],
    clocks: &mut [i64],
    clock_states: &mut [u8],
    satellites: &mut [u16],
    numbers: &mut [i64],
    states: &mut [u8],
    losses: &mut [u8],
    strengths: &mut [u8],
    carried: &mut [u8],
)
    requires { Runs text.now from.state from.at }
    ensures { (codes : List ℕ) → buffers codes times.new time_states.new flags.new tallies.new clocks.new clock_states.new satellites.new numbers.new states.new losses.new strengths.new carried.new ≡ filled_from from.state (buffers codes times.old time_states.old flags.old tallies.old clocks.old clock_states.old satellites.old numbers.old states.old losses.old strengths.old carried.old) (split (drop from.at text.now)) }
{
    let mut c = from.state;
    let mut at = from.at;
    // No `for`: where the next line begins is found at each.
    while at < text.len() {
        let end = line_end(text, at);
        let line = &text[at..end];
        fill_line(
            c,
            line,
            times,
            time_states,
            flags,
            tallies,
            clocks,
            clock_states,
            satellites,
            numbers,
            states,
            losses,
            strengths,
            carried,
        );
        c = data_next(c, line);
        at = end + 1;
    }
}
