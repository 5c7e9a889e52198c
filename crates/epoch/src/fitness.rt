// Whether an epoch record is fit.
ghost use Rattle.std.specs.Prelude.{◌≡◌};
ghost use Rattle.rinex.specs.Tests.{time_fits, clock_fits, epoch_fits};
ghost use Rattle.epoch.specs.Steps.{count_fits};

use crate::fields::{clock_at, flag_at, whole_at};
use crate::time::epoch_time;
use field::read::is_digit;
use line::within::{blank_columns, blank_past, column};

// A time; or, under flags 2, 3 and 4, columns 3 to 29 all blank.
#[tactic(auto, unfolding(rinex::specs::Tests::time_fits))]
fn time_fits(line: &[u8], flag: usize) -> bool
    ensures { result ≡ time_fits flag line.now }
{
    epoch_time(line).is_some() || (2..=4).contains(&flag) && blank_columns(line, 3, 29)
}

// A whole number in columns 33 to 35.
#[tactic(auto, unfolding(crate::specs::Steps::count_fits))]
fn count_fits(line: &[u8]) -> bool
    ensures { result ≡ count_fits line.now }
{
    whole_at(line, 33, 35).is_some()
}

// Blank; or a number, where the flag is none of an event.
#[tactic(auto, unfolding(rinex::specs::Tests::clock_fits, crate::specs::Lines::clock_held))]
fn clock_fits(line: &[u8], flag: usize) -> bool
    ensures { result ≡ clock_fits flag line.now }
{
    blank_columns(line, 42, 56) || !(2..=5).contains(&flag) && clock_at(line).is_some()
}

// Whether a line is a fit epoch record; flags 6 to 9 are judged as flag 0.
#[tactic(auto, unfolding(rinex::specs::Tests::epoch_fits, crate::specs::Steps::count_fits))]
pub fn epoch_fits(line: &[u8]) -> bool
    ensures { result ≡ epoch_fits line.now }
{
    let flag = flag_at(line);
    column(line, 1) == b'>'
        && column(line, 2) == b' '
        && time_fits(line, flag)
        && blank_columns(line, 30, 31)
        && is_digit(column(line, 32))
        && count_fits(line)
        && blank_columns(line, 36, 41)
        && clock_fits(line, flag)
        && blank_past(line, 56)
}
