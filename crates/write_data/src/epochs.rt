// Epochs: a record, and its rows or its lines.
ghost use Rattle.std.specs.Prelude.{◌≡◌, true, [], ◌∷◌, ◌++◌, ◌+◌, ◌^◌, ◌<◌, length, drop};
ghost use Rattle.std.proofs.lemmas.List.Edits.{sets};
ghost use Rattle.line.specs.Text.{split};
ghost use Rattle.rinex.specs.Normal.{normal_epoch};
ghost use Rattle.rinex.specs.Lent.{entry_of};
ghost use Rattle.rinex.specs.Fit.{behind_lines};
ghost use Rattle.lent.specs.Parts.{data_in, rows_in, EpochsHold};
ghost use Rattle.fits.specs.Stepping.{untaken_of};
ghost use Rattle.write_lines.specs.Lines.{are_held};
ghost use Rattle.write_rows.specs.Rows.{RowsReady};
ghost use Rattle.write_data.specs.EpochTexts.{epoch_from, epoch_next, EpochReady, epochs_text, EpochsReady};
ghost use Rattle.write_data.specs.Records.{record_line, RecordFits, observed_text, observed_next, event_text};

use crate::Next;
use fits::Untaken;
use lent::{Epochs, Rows};
use put_line::put_line;
use rinex::EpochEntry;
use spell_data::epoch::epoch_columns;
use write_lines::put_lines;
use write_rows::put_rows;

// The record of an entry, and the place behind it.
fn put_record(e: EpochEntry, out: &mut [u8], at: usize) -> usize
    requires { RecordFits (entry_of e) × (at + (length (record_line (entry_of e)) + 1) < 2 ^ 64) }
    ensures out_after { out.new ≡ sets out.old at (record_line (entry_of e) ++ (10 ∷ [])) }
    ensures value { result ≡ at + (length (record_line (entry_of e)) + 1) }
{
    let mut line = [b' '; 56];
    epoch_columns(e, &mut line);
    put_line(at, &line, out)
}

// An epoch of flag 0 or 1.
fn put_observed(
    lengths: [usize; 7],
    rows: &Rows,
    e: EpochEntry,
    c: Untaken,
    out: &mut [u8],
    at: usize,
) -> Next
    requires { RecordFits (entry_of e) × (RowsReady lengths (rows_in rows.now) e.count c.row c.slot × (at + length (observed_text lengths (rows_in rows.now) (entry_of e) c.row c.slot) < 2 ^ 64)) }
    ensures out_after { out.new ≡ sets out.old at (observed_text lengths (rows_in rows.now) (entry_of e) c.row c.slot) }
    ensures at_value { (result.at ≡ at + length (observed_text lengths (rows_in rows.now) (entry_of e) c.row c.slot)) × (result.untaken ≡ observed_next lengths (rows_in rows.now) e c) }
{
    let to = put_record(e, out, at);
    let k = e.count as usize;
    let end = put_rows(lengths, rows, k, c.row, c.slot, out, to);
    Next {
        untaken: Untaken {
            row: c.row + k,
            slot: end.from,
            at: c.at,
            last: Some(e.time),
        },
        at: end.at,
    }
}

// An epoch of another flag.
fn put_event(carried: &[u8], e: EpochEntry, c: Untaken, out: &mut [u8], at: usize) -> Next
    requires { RecordFits (entry_of e) × ((are_held e.count (split (drop c.at carried.now)) ≡ true) × (at + length (event_text (entry_of e) (split (drop c.at carried.now))) < 2 ^ 64)) }
    ensures out_after { out.new ≡ sets out.old at (event_text (entry_of e) (split (drop c.at carried.now))) }
    ensures at_value { (result.at ≡ at + length (event_text (entry_of e) (split (drop c.at carried.now)))) × (untaken_of carried.now result.untaken ≡ behind_lines (entry_of e) (untaken_of carried.now c)) }
{
    let to = put_record(e, out, at);
    let lines = put_lines(carried, c.at, e.count as usize, out, to);
    Next {
        untaken: Untaken {
            at: lines.from,
            ..c
        },
        at: lines.at,
    }
}

// The epoch of an entry, from the place that was reached in the tables.
pub fn put_epoch(
    lengths: [usize; 7],
    rows: &Rows,
    carried: &[u8],
    e: EpochEntry,
    c: Untaken,
    out: &mut [u8],
    at: usize,
) -> Next
    requires { EpochReady lengths (rows_in rows.now) (entry_of e) (untaken_of carried.now c) × (at + length (normal_epoch (epoch_from lengths (rows_in rows.now) (entry_of e) (untaken_of carried.now c))) < 2 ^ 64) }
    ensures out_after { out.new ≡ sets out.old at (normal_epoch (epoch_from lengths (rows_in rows.now) (entry_of e) (untaken_of carried.now c))) }
    ensures at_value { (result.at ≡ at + length (normal_epoch (epoch_from lengths (rows_in rows.now) (entry_of e) (untaken_of carried.now c)))) × (untaken_of carried.now result.untaken ≡ epoch_next lengths (rows_in rows.now) (entry_of e) (untaken_of carried.now c)) }
{
    if e.flag <= 1 {
        put_observed(lengths, rows, e, c, out, at)
    } else {
        put_event(carried, e, c, out, at)
    }
}

// The first n entries, from the place that was reached in the tables.
pub fn put_epochs(
    lengths: [usize; 7],
    n: usize,
    epochs: &Epochs,
    rows: &Rows,
    carried: &[u8],
    from: Untaken,
    out: &mut [u8],
    at: usize,
)
    requires { EpochsHold n epochs.now × (EpochsReady lengths (data_in epochs.now rows.now) n 0 (untaken_of carried.now from) × (at + length (epochs_text lengths (data_in epochs.now rows.now) n 0 (untaken_of carried.now from)) < 2 ^ 64)) }
    ensures { out.new ≡ sets out.old at (epochs_text lengths (data_in epochs.now rows.now) n 0 (untaken_of carried.now from)) }
{
    let mut c = from;
    let mut to = at;
    for i in 0..n {
        let e = epochs.entry(i);
        let next = put_epoch(lengths, rows, carried, e, c, out, to);
        c = next.untaken;
        to = next.at;
    }
}
