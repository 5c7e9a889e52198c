// TIME OF FIRST OBS.
ghost use Rattle.std.specs.Prelude.{◌≡◌};
ghost use Rattle.lists.specs.Lists;
ghost use Rattle.lists.specs.Lists.{place};
ghost use Rattle.rinex.specs.Codes.{time_systems};
ghost use Rattle.rinex.specs.Tests.{first_fits, first_time};
ghost use Rattle.header.specs.Lines.{time_system_at};

use crate::fields::{second, six};
use line::within::{blank_columns, columns};
use lists::same;
use moment::{Date, moment_of};

#[tactic(auto, using(moment::proofs::Dates::counted_is), unfolding(moment::specs::Found::time_in))]
pub fn first_time(line: &[u8]) -> Option<u64>
    ensures { result ≡ first_time line.now }
{
    moment_of(Date {
        year: six(line, 1)?,
        month: six(line, 7)?,
        day: six(line, 13)?,
        hour: six(line, 19)?,
        minute: six(line, 25)?,
        ticks: second(line)?,
    })
}

// The place of a name among those of the time systems, and 6 where it is none of them.
fn time_place(name: &[u8]) -> usize
    ensures { result ≡ place Lists.same name.now time_systems }
{
    if same(name, b"GPS") {
        0
    } else if same(name, b"GLO") {
        1
    } else if same(name, b"GAL") {
        2
    } else if same(name, b"QZS") {
        3
    } else if same(name, b"BDT") {
        4
    } else if same(name, b"IRN") {
        5
    } else {
        6
    }
}

// The place of the time system, 6 where it is none: it is held as a number, which the C interface has.
pub fn time_system(line: &[u8]) -> usize
    ensures { result ≡ time_system_at line.now }
{
    let mut name = [b' '; 3];
    columns(line, 49, &mut name);
    time_place(&name)
}

#[tactic(auto, using(crate::proofs::Times::in_place_is), unfolding(rinex::specs::Tests::first_fits, crate::specs::Lines::time_system_at))]
pub fn first_fits(line: &[u8]) -> bool
    ensures { result ≡ first_fits line.now }
{
    first_time(line).is_some()
        && blank_columns(line, 44, 48)
        && time_system(line) < 6
        && blank_columns(line, 52, 60)
}
