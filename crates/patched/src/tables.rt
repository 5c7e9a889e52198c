// What `read` makes of a text, with single entries patched.
use crate::patch::{patch, patch_texts, signed, unsigned};
use cases::tables::CaseTables;
use read_reply::Reply;
use reader::read;

fn patch_epochs(lent: &mut CaseTables, lines: &[u8]) {
    patch(&mut lent.times, "times", lines, unsigned);
    patch(&mut lent.time_states, "time_states", lines, unsigned);
    patch(&mut lent.flags, "flags", lines, unsigned);
    patch(&mut lent.tallies, "counts", lines, unsigned);
    patch(&mut lent.clocks, "clocks", lines, signed);
    patch(&mut lent.clock_states, "clock_states", lines, unsigned);
}

fn patch_rows(lent: &mut CaseTables, lines: &[u8]) {
    patch(&mut lent.satellites, "satellites", lines, unsigned);
    patch(&mut lent.numbers, "numbers", lines, signed);
    patch(&mut lent.states, "states", lines, unsigned);
    patch(&mut lent.losses, "losses", lines, unsigned);
    patch(&mut lent.strengths, "strengths", lines, unsigned);
}

// What `read` makes of the base, patched.
pub fn made(base: &[u8], lines: &[u8], lent: &mut CaseTables) -> Reply {
    let r = read(
        base,
        &mut lent.codes,
        &mut lent.times,
        &mut lent.time_states,
        &mut lent.flags,
        &mut lent.tallies,
        &mut lent.clocks,
        &mut lent.clock_states,
        &mut lent.satellites,
        &mut lent.numbers,
        &mut lent.states,
        &mut lent.losses,
        &mut lent.strengths,
        &mut lent.carried,
    );
    patch(&mut lent.codes, "codes", lines, unsigned);
    patch_epochs(lent, lines);
    patch_rows(lent, lines);
    patch_texts(&mut lent.carried, lines);
    r
}
