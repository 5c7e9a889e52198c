// INTERVAL.
ghost use Rattle.std.specs.Prelude.{◌≡◌};
ghost use Rattle.rinex.specs.Tests.{interval_fits};
ghost use Rattle.header.specs.Lines.{interval_at};

use crate::fields;
use line::within::{blank_columns, columns};

// Thousandths of INTERVAL, and 0 where it is unfit or not above 0.
pub fn interval(line: &[u8]) -> u64
    ensures { result ≡ interval_at line.now }
{
    let mut field = [b' '; 10];
    columns(line, 1, &mut field);
    fields::above(&field)
}

#[tactic(auto, using(crate::proofs::Numbers::is_above_lem), unfolding(rinex::specs::Tests::interval_fits, crate::specs::Lines::interval_at))]
pub fn interval_fits(line: &[u8]) -> bool
    ensures { result ≡ interval_fits line.now }
{
    interval(line) != 0 && blank_columns(line, 11, 60)
}
