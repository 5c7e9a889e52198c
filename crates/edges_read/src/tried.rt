// One case: tables are lent, `read` is called, and its answer is held to the one that is due.
use crate::answer::{Outcome, due};
use crate::show;
use cases::kept::{are_kept, changed};
use cases::room::{cut, lend};
use cases::tables::CaseTables;
use cases::words::{first, nth};
use read_reply::Reply;
use reader::read;
use std::io;

fn came(r: &Reply, codes: usize) -> Outcome {
    Outcome {
        number: r.number,
        line: r.line,
        codes,
        epochs: r.counts.epochs,
        rows: r.counts.rows,
        slots: r.counts.slots,
        carried: r.counts.carried,
    }
}

fn compare(
    rt: &impl Print,
    name: &[u8],
    came: Outcome,
    due: Outcome,
    kept: bool,
) -> io::Result<()> {
    rt.write_all(name)?;
    print!(rt; ": {came}")?;
    if came != due {
        print!(rt; " WRONG, due is {due}")?;
    }
    if !kept {
        print!(rt; " TOUCHED")?;
    }
    println!(rt)
}

// No entry past the counts is another.
fn all_kept(came: Outcome, lent: &CaseTables) -> bool {
    are_kept(&lent.times, came.epochs)
        && are_kept(&lent.time_states, came.epochs)
        && are_kept(&lent.flags, came.epochs)
        && are_kept(&lent.tallies, came.epochs)
        && are_kept(&lent.clocks, came.epochs)
        && are_kept(&lent.clock_states, came.epochs)
        && are_kept(&lent.satellites, came.rows)
        && are_kept(&lent.numbers, came.slots)
        && are_kept(&lent.states, came.slots)
        && are_kept(&lent.losses, came.slots)
        && are_kept(&lent.strengths, came.slots)
        && are_kept(&lent.carried, came.carried)
}

fn show_epochs(rt: &impl Print, n: usize, lent: &CaseTables) -> io::Result<()> {
    let n = Some(n);
    show::plain(rt, "  times", lend(&lent.times, n))?;
    show::plain(rt, "  time_states", lend(&lent.time_states, n))?;
    show::plain(rt, "  flags", lend(&lent.flags, n))?;
    show::plain(rt, "  counts", lend(&lent.tallies, n))?;
    show::signed(rt, "  clocks", lend(&lent.clocks, n))?;
    show::plain(rt, "  clock_states", lend(&lent.clock_states, n))
}

fn show_slots(rt: &impl Print, n: usize, lent: &CaseTables) -> io::Result<()> {
    let n = Some(n);
    show::signed(rt, "  numbers", lend(&lent.numbers, n))?;
    show::plain(rt, "  states", lend(&lent.states, n))?;
    show::plain(rt, "  losses", lend(&lent.losses, n))?;
    show::plain(rt, "  strengths", lend(&lent.strengths, n))
}

fn judged(
    rt: &impl Print,
    name: &[u8],
    asked: &[u8],
    r: &Reply,
    lent: &CaseTables,
) -> io::Result<()> {
    let came = came(r, changed(&lent.codes));
    compare(rt, name, came, due(asked), all_kept(came, lent))?;
    if first(asked) != b'&' {
        return Ok(());
    }
    show::head(rt, &r.head)?;
    show::codes(rt, &lent.codes)?;
    show_epochs(rt, came.epochs, lent)?;
    show::plain(rt, "  satellites", lend(&lent.satellites, Some(came.rows)))?;
    show_slots(rt, came.slots, lent)?;
    rt.write_all(lend(&lent.carried, Some(came.carried)))
}

// The tables are cut to the room that the script gives them, in the order of `read`, or lent whole.
pub fn tried(
    rt: &impl Print,
    name: &[u8],
    text: &[u8],
    room: &[u8],
    asked: &[u8],
) -> io::Result<()> {
    let mut lent = CaseTables::filled();
    let r = read(
        text,
        cut(&mut lent.codes, nth(room, 0)),
        cut(&mut lent.times, nth(room, 1)),
        cut(&mut lent.time_states, nth(room, 2)),
        cut(&mut lent.flags, nth(room, 3)),
        cut(&mut lent.tallies, nth(room, 4)),
        cut(&mut lent.clocks, nth(room, 5)),
        cut(&mut lent.clock_states, nth(room, 6)),
        cut(&mut lent.satellites, nth(room, 7)),
        cut(&mut lent.numbers, nth(room, 8)),
        cut(&mut lent.states, nth(room, 9)),
        cut(&mut lent.losses, nth(room, 10)),
        cut(&mut lent.strengths, nth(room, 11)),
        cut(&mut lent.carried, nth(room, 12)),
    );
    judged(rt, name, asked, &r, &lent)
}
