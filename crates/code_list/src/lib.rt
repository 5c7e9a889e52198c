// The lists of codes, 13 a line: what a list's line and its continuations say, and their codes put into their table.
#![tactic(auto)]

ghost use Rattle.std.specs.Prelude.{◌≡◌, List, ℕ, ◌+◌, ◌*◌, ◌≤◌, ◌<◌, leb, length};
ghost use Rattle.lists.specs.Lists.{sum};
ghost use Rattle.rinex.specs.Codes;
ghost use Rattle.rinex.specs.Tests.{in_line, list_count};
ghost use Rattle.code_list.specs.Lines.{CodesStored, Listed, Continued};

use field::read::whole_or;
use line::within::{blank_columns, columns};

// Whether a file of this letter may have a list of this system.
pub fn allows(letter: u8, system: usize) -> bool
    requires { system < 7 }
    ensures { result ≡ Codes.allows letter system }
{
    letter == b'M' || letter == systems::letter_of(system)
}

// How many of the codes that are left stand in one line.
pub fn in_line(left: usize) -> usize
    ensures { (result ≡ in_line left) × (result ≤ 13) × (result ≤ left) }
{
    left.min(13)
}

// The count of a list's line, and 0 where it is unfit.
pub fn list_count(line: &[u8]) -> usize
    ensures { (result ≡ list_count line.now) × (result < 1000) }
{
    let mut field = [b' '; 3];
    columns(line, 4, &mut field);
    whole_or(&field, 0) as usize
}

// A list's line in a file of this letter; where it is fit, its codes go to the table's places of the system.
pub fn list_fits(line: &[u8], letter: u8, table: &mut [u32]) -> bool
    requires { length table.old ≡ 448 }
    ensures { Listed letter line.now table.old table.new result }
{
    let system = systems::system_at(line);
    if 7 <= system {
        return false;
    }
    if !allows(letter, system) {
        return false;
    }
    if !blank_columns(line, 2, 3) {
        return false;
    }
    let n = list_count(line);
    (1..=64).contains(&n) && next_fits(line, system, 0, n, table)
}

// A continuation of a system's list, of which so many codes stand in the table already and so many are left.
pub fn next_fits(line: &[u8], system: usize, before: usize, left: usize, table: &mut [u32]) -> bool
    requires { (length table.old ≡ 448) × ((system < 7) × (before + left ≤ 64)) }
    ensures { (cs : List (List ℕ)) → length cs ≡ before → CodesStored table.old (64 * system) cs → Continued system cs left line.now table.old table.new result }
{
    let n = in_line(left);
    code::codes_fit(line, system, n) && code::put_codes(line, n, 64 * system, before, table)
}

// Some system has codes.
pub fn some_list(lengths: [usize; 7]) -> bool
    ensures { result ≡ leb 1 (sum lengths) }
{
    lengths.iter().any(|n| *n != 0)
}
