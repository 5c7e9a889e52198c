// The time of an epoch record.
ghost use Rattle.std.specs.Prelude.{◌≡◌};
ghost use Rattle.line.specs.Text.{cols};
ghost use Rattle.rinex.specs.Tests.{epoch_time, time_columns};
ghost use Rattle.field.specs.Found.{second_of};
ghost use Rattle.epoch.specs.Steps.{gaps_blank};

use crate::fields::whole_at;
use field::read::second;
use line::within::{column, columns};
use moment::{Date, moment_of};

// The second, in columns 19 to 29, where it is fit.
#[tactic(auto, using(field::proofs::Short::second_told))]
fn second_at(line: &[u8]) -> Option<u64>
    ensures { result ≡ second_of (cols 19 29 line.now) }
{
    let mut field = [b' '; 11];
    columns(line, 19, &mut field);
    second(&field).unwrap_or(None)
}

// The time of the columns of year, month, day, hour, minute and second.
#[tactic(auto, using(moment::proofs::Dates::counted_is), unfolding(moment::specs::Found::time_in))]
fn columns_time(line: &[u8]) -> Option<u64>
    ensures { result ≡ time_columns line.now }
{
    moment_of(Date {
        year: whole_at(line, 3, 6)?,
        month: whole_at(line, 8, 9)?,
        day: whole_at(line, 11, 12)?,
        hour: whole_at(line, 14, 15)?,
        minute: whole_at(line, 17, 18)?,
        ticks: second_at(line)?,
    })
}

// Whether the columns between those are blank.
#[tactic(auto, unfolding(crate::specs::Steps::gaps_blank))]
fn gaps_blank(line: &[u8]) -> bool
    ensures { result ≡ gaps_blank line.now }
{
    column(line, 7) == b' '
        && column(line, 10) == b' '
        && column(line, 13) == b' '
        && column(line, 16) == b' '
}

// The time of an epoch record, where it is given and fit.
#[tactic(auto, unfolding(rinex::specs::Tests::epoch_time, crate::specs::Steps::gaps_blank))]
pub fn epoch_time(line: &[u8]) -> Option<u64>
    ensures { result ≡ epoch_time line.now }
{
    if gaps_blank(line) {
        columns_time(line)
    } else {
        None
    }
}
