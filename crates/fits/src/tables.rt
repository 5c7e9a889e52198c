// The tables as a whole.
ghost use Rattle.std.specs.Prelude.{◌≡◌, ◌&&◌, ◌≤◌, eqb, leb, length};
ghost use Rattle.rinex.specs.Lent.{head_of, counts_of};
ghost use Rattle.line.specs.Text.{split};
ghost use Rattle.rinex.specs.Tables.{room};
ghost use Rattle.rinex.specs.Fit.{room_fits, tables_fit};
ghost use Rattle.lent.specs.Parts.{data_in, tables_in, EpochsHold, SlotsHold};
ghost use Rattle.fits.specs.Stepping.{data_fits};

use crate::walk::epochs_fit;
use crate::{Untaken, begin};
use fits_rows::lines::lines_fit;
use fits_values::code_lists::all_lists_fit;
use fits_values::heads::head_fits;
use lent::{Epochs, Rows, Tables};
use rinex::{Counts, Head};

// Each row, slot and line is taken.
fn all_taken(counts: Counts, c: Untaken, end: usize) -> bool
    ensures { result ≡ (eqb c.row counts.rows && (eqb c.slot counts.slots && leb end c.at)) }
{
    c.row == counts.rows && c.slot == counts.slots && end <= c.at
}

// The header's lines, then the epochs, of which the carried lines are these.
fn data_fits(
    lengths: [usize; 7],
    counts: Counts,
    lines: usize,
    epochs: &Epochs,
    rows: &Rows,
    carried: &[u8],
) -> bool
    requires { EpochsHold counts.epochs epochs.now × ((counts.rows ≤ length rows.now.satellites.now) × SlotsHold counts.slots rows.now.slots) }
    ensures { result ≡ data_fits lengths (counts_of counts) (data_in epochs.now rows.now) lines (split carried.now) }
{
    let Some(run) = lines_fit(false, carried, 0, lines) else {
        return false;
    };
    let start = begin(run.to);
    let Some(c) = epochs_fit(lengths, counts, epochs, rows, carried, start) else {
        return false;
    };
    all_taken(counts, c, carried.len())
}

// The tables lie in the lent buffers.
#[tactic(auto, unfolding(rinex::specs::Fit::room_fits, rinex::specs::Tables::room))]
fn room_fits(counts: Counts, tables: &Tables) -> bool
    ensures { result ≡ room_fits (counts_of counts) (room (tables_in tables.now)) }
{
    counts.epochs <= tables.epochs.room()
        && counts.rows <= tables.rows.satellites.len()
        && counts.slots <= tables.rows.slots.room()
        && counts.carried <= tables.carried.len()
}

// Whether some text spells the tables.
pub fn tables_fit(head: Head, counts: Counts, tables: &Tables) -> bool
    ensures { result ≡ tables_fit (head_of head) (counts_of counts) (tables_in tables.now) }
{
    if !head_fits(head)
        || !all_lists_fit(head.letter, head.lengths, tables.codes)
        || !room_fits(counts, tables)
    {
        return false;
    }
    let used = counts.carried;
    let carried = &tables.carried[..used];
    data_fits(
        head.lengths,
        counts,
        head.lines,
        &tables.epochs,
        &tables.rows,
        carried,
    )
}
