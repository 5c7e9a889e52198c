// The epoch table, entry after entry.
ghost use Rattle.std.specs.Prelude.{◌≡◌};
ghost use Rattle.rinex.specs.Lent.{counts_of};
ghost use Rattle.rinex.specs.Fit.{epochs_fit};
ghost use Rattle.lent.specs.Parts.{data_in, EpochsHold};
ghost use Rattle.fits.specs.Stepping.{untaken_of, passed_of, Ready};

use crate::Untaken;
use crate::epochs::epoch_fits;
use lent::{Epochs, Rows};
use rinex::Counts;

// The entries in use, from the first on; what they leave.
pub fn epochs_fit(
    lengths: [usize; 7],
    counts: Counts,
    epochs: &Epochs,
    rows: &Rows,
    carried: &[u8],
    from: Untaken,
) -> Option<Untaken>
    requires { EpochsHold counts.epochs epochs.now × Ready counts from rows.now }
    ensures { passed_of carried.now result ≡ epochs_fit lengths (counts_of counts) (data_in epochs.now rows.now) counts.epochs 0 (untaken_of carried.now from) }
{
    let mut c = from;
    for i in 0..counts.epochs {
        let e = epochs.entry(i);
        c = epoch_fits(lengths, counts, rows, carried, e, c)?;
    }
    Some(c)
}
