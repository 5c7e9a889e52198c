// Epochs: an entry, and its rows or its lines.
ghost use Rattle.std.specs.Prelude.{◌≡◌, ◌&&◌, List, ℕ, eqb, leb};
ghost use Rattle.rinex.specs.Data.{later};
ghost use Rattle.rinex.specs.Lent.{counts_of, entry_of};
ghost use Rattle.rinex.specs.Fit.{is_time, state_fits, epoch_fits};
ghost use Rattle.lent.specs.Parts.{rows_in};
ghost use Rattle.fits.specs.Stepping.{untaken_of, passed_of, observed_entry, event_entry, observed_step, event_step, Ready};

use crate::Untaken;
use fits_rows::lines::lines_fit;
use fits_rows::rows::rows_fit;
use fits_values::apart::are_apart;
use fits_values::numbers::{is_nought, is_time, number_fits_15_12};
use lent::Rows;
use rinex::{Counts, EpochEntry};

// Later than the last epoch of flag 0 or 1, if one came.
fn is_later(last: Option<u64>, time: u64) -> bool
    ensures { result ≡ later last time }
{
    last.is_none_or(|last| last < time)
}

// An entry of flag 0 or 1, without its rows.
#[tactic(auto, unfolding(crate::specs::Stepping::observed_entry))]
fn observed_entry(e: EpochEntry, last: Option<u64>) -> bool
    ensures { result ≡ observed_entry (entry_of e) last }
{
    e.time_state == 1
        && is_time(e.time)
        && is_later(last, e.time)
        && number_fits_15_12(e.clock_state, e.clock)
        && e.count <= 999
}

// An event may lack its time where its flag is not 5.
fn event_time(state: u8, time: u64, flag: u8) -> bool
    ensures { result ≡ state_fits state (eqb time 0 && leb flag 4) (is_time time) }
{
    match state {
        0 => time == 0 && flag <= 4,
        1 => is_time(time),
        _ => false,
    }
}

// An entry of flag 2 to 5, without its lines.
#[tactic(auto, unfolding(crate::specs::Stepping::event_entry))]
fn event_entry(e: EpochEntry) -> bool
    ensures { result ≡ event_entry (entry_of e) }
{
    e.flag <= 5
        && event_time(e.time_state, e.time, e.flag)
        && e.clock_state == 0
        && is_nought(e.clock)
        && e.count <= 999
}

// An epoch of flag 0 or 1.
fn observed_fits(
    lengths: [usize; 7],
    counts: Counts,
    rows: &Rows,
    e: EpochEntry,
    c: Untaken,
) -> Option<Untaken>
    requires { Ready counts c rows.now }
    ensures { (t : List ℕ) → passed_of t result ≡ observed_step lengths (counts_of counts) (rows_in rows.now) (entry_of e) (untaken_of t c) }
{
    let row = c.row;
    let k = e.count as usize;
    if !observed_entry(e, c.last) || counts.rows - row < k {
        return None;
    }
    let slot = rows_fit(lengths, counts, rows, k, row, c.slot)?;
    if !are_apart(&rows.satellites[row..row + k]) {
        return None;
    }
    Some(Untaken {
        row: row + k,
        slot,
        at: c.at,
        last: Some(e.time),
    })
}

// An epoch of another flag.
fn event_fits(carried: &[u8], e: EpochEntry, c: Untaken) -> Option<Untaken>
    ensures { passed_of carried.now result ≡ event_step (entry_of e) (untaken_of carried.now c) }
{
    if !event_entry(e) {
        return None;
    }
    let run = lines_fit(true, carried, c.at, e.count as usize)?;
    let asked = e.flag == 3;
    if asked && !run.marker {
        return None;
    }
    Some(Untaken {
        row: c.row,
        slot: c.slot,
        at: run.to,
        last: c.last,
    })
}

// An epoch; what it leaves.
pub fn epoch_fits(
    lengths: [usize; 7],
    counts: Counts,
    rows: &Rows,
    carried: &[u8],
    e: EpochEntry,
    c: Untaken,
) -> Option<Untaken>
    requires { Ready counts c rows.now }
    ensures { passed_of carried.now result ≡ epoch_fits lengths (counts_of counts) (rows_in rows.now) (entry_of e) (untaken_of carried.now c) }
{
    if e.flag <= 1 {
        observed_fits(lengths, counts, rows, e, c)
    } else {
        event_fits(carried, e, c)
    }
}
