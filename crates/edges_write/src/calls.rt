// The calls. The tables are cut to the room that the script gives them, in the order of `write`, or lent whole.
use cases::room::lend;
use cases::tables::CaseTables;
use cases::words::{MISSING, nth};
use lent::{Epochs, Rows, SlotTables, Tables};
use rinex::{Counts, EpochEntry, Head};
use write_reply::Reply;
use writer::alone::write_epoch;
use writer::whole::write;

// The place that a call names. What stands for a number that is not there is no place either.
pub fn place(call: &[u8]) -> usize {
    nth(call, 2).filter(|place| *place != MISSING).unwrap_or(0)
}

fn epochs<'a>(room: &[u8], lent: &'a CaseTables) -> Epochs<'a> {
    Epochs {
        times: lend(&lent.times, nth(room, 1)),
        time_states: lend(&lent.time_states, nth(room, 2)),
        flags: lend(&lent.flags, nth(room, 3)),
        tallies: lend(&lent.tallies, nth(room, 4)),
        clocks: lend(&lent.clocks, nth(room, 5)),
        clock_states: lend(&lent.clock_states, nth(room, 6)),
    }
}

fn slots<'a>(room: &[u8], lent: &'a CaseTables) -> SlotTables<'a> {
    SlotTables {
        numbers: lend(&lent.numbers, nth(room, 8)),
        states: lend(&lent.states, nth(room, 9)),
        losses: lend(&lent.losses, nth(room, 10)),
        strengths: lend(&lent.strengths, nth(room, 11)),
    }
}

fn tables<'a>(room: &[u8], lent: &'a CaseTables) -> Tables<'a> {
    Tables {
        codes: lend(&lent.codes, nth(room, 0)),
        epochs: epochs(room, lent),
        rows: Rows {
            satellites: lend(&lent.satellites, nth(room, 7)),
            slots: slots(room, lent),
        },
        carried: lend(&lent.carried, nth(room, 12)),
    }
}

pub fn whole(
    call: &[u8],
    room: &[u8],
    head: Head,
    used: Counts,
    lent: &CaseTables,
    out: &mut [u8],
) -> Reply {
    write(head, used, &tables(room, lent), out, place(call))
}

// The first entry of the epoch table, whatever room is given.
pub fn alone(
    call: &[u8],
    room: &[u8],
    lengths: [usize; 7],
    lent: &CaseTables,
    out: &mut [u8],
) -> Reply {
    let entry = EpochEntry {
        time_state: lent.time_states[0],
        time: lent.times[0],
        flag: lent.flags[0],
        count: lent.tallies[0],
        clock_state: lent.clock_states[0],
        clock: lent.clocks[0],
    };
    let tables = tables(room, lent);
    write_epoch(
        lengths,
        entry,
        tables.codes,
        &tables.rows,
        tables.carried,
        out,
        place(call),
    )
}
