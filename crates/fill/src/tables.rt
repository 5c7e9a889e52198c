// The whole second pass.
// The tables stay parameters of their own: a struct of `&mut` slices needs a clause for each that it is the one lent.
ghost use Rattle.std.specs.Prelude.{◌≡◌, ◌≤◌, length};
ghost use Rattle.line.specs.Text.{split};
ghost use Rattle.judge.specs.Ending.{header_end};
ghost use Rattle.judge.specs.Step.{Runs, ended_at};
ghost use Rattle.fill.specs.Fill.{head_from, nothing_read};
ghost use Rattle.rinex.specs.Lent.{buffers};
ghost use Rattle.fill.specs.Filling.{rest_of, Lined, second_pass};

use crate::HeadRest;
use crate::data::fill_data;
use crate::heading::fill_header;
use fill_codes::fill_codes;
use judge::Cursor;

// An accepted text, with the cursor behind its header and the table of its codes.
pub fn fill_tables(
    text: &[u8],
    from: Cursor,
    table: &[u32],
    codes: &mut [u32],
    times: &mut [u64],
    time_states: &mut [u8],
    flags: &mut [u8],
    tallies: &mut [u16],
    clocks: &mut [i64],
    clock_states: &mut [u8],
    satellites: &mut [u16],
    numbers: &mut [i64],
    states: &mut [u8],
    losses: &mut [u8],
    strengths: &mut [u8],
    carried: &mut [u8],
) -> HeadRest
    requires { (Runs text.now from.state from.at × Lined text.now) × ((header_end text.now ≡ ended_at text.now table.now from) × ((length table.now ≡ 448) × (1 ≤ from.line))) }
    ensures result_value { rest_of result ≡ head_from (header_end text.now).lines nothing_read (split text.now) }
    ensures carried_after { buffers codes.new times.new time_states.new flags.new tallies.new clocks.new clock_states.new satellites.new numbers.new states.new losses.new strengths.new carried.new ≡ second_pass text.now (buffers codes.old times.old time_states.old flags.old tallies.old clocks.old clock_states.old satellites.old numbers.old states.old losses.old strengths.old carried.old) }
{
    let lengths = from.state.lengths;
    fill_codes(lengths, table, codes);
    let head = fill_header(text, from.line - 1, carried);
    fill_data(
        text,
        from,
        times,
        time_states,
        flags,
        tallies,
        clocks,
        clock_states,
        satellites,
        numbers,
        states,
        losses,
        strengths,
        carried,
    );
    head
}
