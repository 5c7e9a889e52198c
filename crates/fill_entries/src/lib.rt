// The entries of an epoch record and of a row in accepted data, put into the lent tables.
// The tables stay parameters of their own: a struct of `&mut` slices needs a clause for each that it is the one lent.
#![tactic(auto)]

ghost use Rattle.std.specs.Prelude.{◌≡◌, true, ◌^◌, ◌≤◌, ◌<◌, length};
ghost use Rattle.rinex.specs.Tests.{satellite_fits, slots_fit};
ghost use Rattle.state.specs.Judge.{slots_of_row};
ghost use Rattle.fill_entries.specs.Entries.{EpochStored, RowStored};

use epoch::fields::{clock_at, count_at, flag_at};
use epoch::time::epoch_time;
use lists::store::put;
use row_store::put_slots;
use satellite::{name_of, number_at};
use state::State;
use systems::codes_of;

// The entry of an epoch record.
pub fn put_epoch(
    c: State,
    line: &[u8],
    times: &mut [u64],
    time_states: &mut [u8],
    flags: &mut [u8],
    tallies: &mut [u16],
    clocks: &mut [i64],
    clock_states: &mut [u8],
)
    ensures { EpochStored c line.now times.old times.new time_states.old time_states.new flags.old flags.new tallies.old tallies.new clocks.old clocks.new clock_states.old clock_states.new }
{
    let i = c.used.epochs;
    let t = epoch_time(line);
    put(times, i, t.unwrap_or(0));
    put(time_states, i, u8::from(t.is_some()));
    let flag = flag_at(line);
    put(flags, i, flag as u8);
    put(tallies, i, count_at(line) as u16);
    let clock = clock_at(line);
    put(clocks, i, clock.unwrap_or(0));
    put(clock_states, i, u8::from(clock.is_some()));
}

// The entry of a row, and its slots.
pub fn put_row(
    c: State,
    line: &[u8],
    satellites: &mut [u16],
    numbers: &mut [i64],
    states: &mut [u8],
    losses: &mut [u8],
    strengths: &mut [u8],
)
    requires lengths_len { (length c.lengths ≡ 7) × ((slots_of_row c line.now ≤ 64) × (c.used.slots < 2 ^ 40)) }
    requires line_value { (satellite_fits line.now ≡ true) × (slots_fit (slots_of_row c line.now) 4 line.now ≡ true) }
    ensures { RowStored c line.now satellites.old satellites.new numbers.old numbers.new states.old states.new losses.old losses.new strengths.old strengths.new }
{
    let lengths = c.lengths;
    let system = systems::system_at(line);
    let n = codes_of(lengths, system);
    let name = name_of(system, number_at(line));
    put(satellites, c.used.rows, name as u16);
    put_slots(line, n, c.used.slots, numbers, states, losses, strengths);
}
