// Writes one epoch alone.
ghost use Rattle.std.specs.Prelude.{◌≡◌, []};
ghost use Rattle.line.specs.Text.{split};
ghost use Rattle.rinex.specs.Fit.{epoch_fits, lent, all_untaken};
ghost use Rattle.rinex.specs.Lent.{entry_of};
ghost use Rattle.rinex.specs.Promises.{WriteEpoch, Keeps};
ghost use Rattle.lent.specs.Parts.{rows_in};
ghost use Rattle.fits.specs.Stepping.{passed_of};
ghost use Rattle.write_reply.specs.Replies.{told, result_of};
ghost use Rattle.writer.specs.Alone.{alone_in};

use fits::epochs::epoch_fits;
use fits::{Untaken, begin};
use fits_values::code_lists::all_lists_fit;
use lent::Rows;
use lent_room::{room_behind, shorter};
use measure::whole::lone_size;
use rinex::{Counts, EpochEntry};
use write_data::epochs::put_epoch;
use write_reply::{Reply, Unwritten};

// Whether the epoch fits with which the lent tables begin: all that is lent is there for it, and no epoch came before. What it leaves.
fn fits_alone(lengths: [usize; 7], e: EpochEntry, rows: &Rows, carried: &[u8]) -> Option<Untaken>
    ensures { passed_of carried.now result ≡ epoch_fits lengths (lent (alone_in [] rows.now carried.now)) (rows_in rows.now) (entry_of e) (all_untaken (split carried.now)) }
{
    let used = Counts {
        epochs: 0,
        rows: rows.satellites.len(),
        slots: rows.slots.room(),
        carried: carried.len(),
    };
    epoch_fits(lengths, used, rows, carried, e, begin(0))
}

// How many bytes are written from a place on, or why none are. No letter is judged: M allows each system.
fn epoch_written(
    lengths: [usize; 7],
    e: EpochEntry,
    codes: &[u32],
    rows: &Rows,
    carried: &[u8],
    out: &mut [u8],
    at: usize,
) -> Result<usize, Unwritten>
    ensures { Keeps result_of (WriteEpoch lengths (entry_of e) (alone_in codes.now rows.now carried.now) out.old out.new at) result }
{
    if !all_lists_fit(b'M', lengths, codes) {
        return Err(Unwritten::NoText);
    }
    let Some(end) = fits_alone(lengths, e, rows, carried) else {
        return Err(Unwritten::NoText);
    };
    // the test's place may lie past the last byte where no line is left
    let lines = shorter(end.at, carried.len());
    let most = room_behind(out.len(), at);
    let size = lone_size(most, lengths, rows, e.clock_state, e.flag, e.count, lines);
    if most < size {
        return Err(Unwritten::NoRoom);
    }
    let part = &mut out[at..];
    put_epoch(lengths, rows, carried, e, begin(0), part, 0);
    Ok(size)
}

// The normal text of an epoch, with which the lent tables begin, from a place of a lent buffer on: 20 where no text spells it, else 21 where it
// has no room.
pub fn write_epoch(
    lengths: [usize; 7],
    e: EpochEntry,
    codes: &[u32],
    rows: &Rows,
    carried: &[u8],
    out: &mut [u8],
    at: usize,
) -> Reply
    ensures { Keeps told (WriteEpoch lengths (entry_of e) (alone_in codes.now rows.now carried.now) out.old out.new at) result }
{
    Reply::from(epoch_written(lengths, e, codes, rows, carried, out, at))
}
