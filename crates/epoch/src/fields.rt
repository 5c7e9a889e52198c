// The fields of an epoch record: its whole numbers, its flag, its count and its clock.
ghost use Rattle.std.specs.Prelude.{◌≡◌, ◌+◌, ◌≤◌, ◌<◌};
ghost use Rattle.field.specs.Found.{whole_of};
ghost use Rattle.line.specs.Text.{cols};
ghost use Rattle.epoch.specs.Lines.{clock_held};
ghost use Rattle.rinex.specs.Tests.{flag_at, count_at};

use field::read::{decimal, whole};
use line::within::{column, columns};

// The whole number of columns `a` to `b`, four at most, where it is fit.
#[tactic(auto, using(field::proofs::Short::whole_told_lem))]
pub(crate) fn whole_at(line: &[u8], a: usize, b: usize) -> Option<u64>
    requires { (1 ≤ a) × ((a ≤ b) × (b ≤ a + 3)) }
    ensures { result ≡ whole_of (cols a b line.now) }
{
    let mut field = [b' '; 4];
    columns(line, a, &mut field);
    let n = b - a + 1;
    whole(&field[..n]).unwrap_or(None)
}

// The flag, in column 32.
#[tactic(auto, unfolding(rinex::specs::Tests::flag_at))]
pub fn flag_at(line: &[u8]) -> usize
    ensures { (result ≡ flag_at line.now) × (result < 256) }
{
    usize::from(column(line, 32).saturating_sub(b'0'))
}

// The count, in columns 33 to 35, and 0 where it is unfit.
pub fn count_at(line: &[u8]) -> usize
    ensures { (result ≡ count_at line.now) × (result < 1000) }
{
    let Some(n) = whole_at(line, 33, 35) else {
        return 0;
    };
    n as usize
}

// The clock, in columns 42 to 56, where it is given and fit.
pub fn clock_at(line: &[u8]) -> Option<i64>
    ensures { result ≡ clock_held line.now }
{
    let mut clock = [b' '; 15];
    columns(line, 42, &mut clock);
    let Ok(clock) = decimal(&clock, 12) else {
        return None;
    };
    clock
}
