// Whether some text spells the lent tables: the epochs and the whole of `rinex/specs/Fit.antt`, over `fits_values` and `fits_rows`.
#![tactic(auto)]

pub mod epochs;
pub mod tables;
pub mod walk;

ghost use Rattle.std.specs.Prelude.{◌≡◌};
ghost use Rattle.fits.specs.Stepping.{beginning};

// The first row, slot and byte of the carried lines that no epoch has taken yet, and the last time of an epoch of flag 0 or 1, if one came.
#[derive(Clone, Copy, Debug, PartialEq, Eq)]
pub struct Untaken {
    pub row: usize,
    pub slot: usize,
    pub at: usize,
    pub last: Option<u64>,
}

// Before the first epoch, whose carried lines begin at this byte.
pub fn begin(at: usize) -> Untaken
    ensures { result ≡ beginning at }
{
    Untaken {
        row: 0,
        slot: 0,
        at,
        last: None,
    }
}
