// The satellite of a row: whether it is fit, its number and its name.
#![tactic(auto)]

ghost use Rattle.std.specs.Prelude.{◌≡◌, true, ◌+◌, ◌*◌, ◌≤◌, ◌<◌};
ghost use Rattle.rinex.specs.Tests.{number_at, satellite_fits};
ghost use Rattle.satellite.specs.Steps.{two_digits};

use line::within::column;
use systems::system_at;

// The number of columns 2 and 3, and 0 where they are no digits.
fn two_digits(line: &[u8]) -> usize
    ensures { (result ≡ two_digits line.now) × (result < 100) }
{
    let t = column(line, 2);
    let u = column(line, 3);
    if !t.is_ascii_digit() || !u.is_ascii_digit() {
        return 0;
    }
    usize::from(t - b'0') * 10 + usize::from(u - b'0')
}

// A letter of the seven and two digits, 01 to 99.
pub fn satellite_fits(line: &[u8]) -> bool
    ensures { result ≡ satellite_fits line.now }
{
    system_at(line) < 7 && 1 <= two_digits(line)
}

// The number of a row's satellite, where it is fit.
pub fn number_at(line: &[u8]) -> usize
    ensures { (satellite_fits line.now ≡ true → result ≡ number_at line.now) × (result < 100) }
{
    two_digits(line)
}

// A satellite as one number.
pub fn name_of(system: usize, number: usize) -> usize
    requires { (system ≤ 7) × (number < 100) }
    ensures { result ≡ 100 * system + number }
{
    100 * system + number
}
