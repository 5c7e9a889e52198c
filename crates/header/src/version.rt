// RINEX VERSION / TYPE.
ghost use Rattle.std.specs.Prelude.{◌≡◌};
ghost use Rattle.lists.specs.Lists;
ghost use Rattle.lists.specs.Lists.{bytes};
ghost use Rattle.line.specs.Text.{cols};
ghost use Rattle.rinex.specs.Tests.{version_fits};

use label::Label;
use label::named::label;
use line::within::{blank_columns, blank_past, column, columns};
use lists::same;
use systems::is_file_letter;

// Whether columns 1 to 9 say 3.03.
fn is_version(line: &[u8]) -> bool
    ensures { result ≡ Lists.same (cols 1 9 line.now) (bytes "     3.03") }
{
    let mut version = [b' '; 9];
    columns(line, 1, &mut version);
    same(&version, b"     3.03")
}

#[tactic(auto, unfolding(rinex::specs::Tests::version_fits))]
pub fn version_fits(line: &[u8]) -> bool
    ensures { result ≡ version_fits line.now }
{
    is_version(line)
        && blank_columns(line, 10, 20)
        && column(line, 21) == b'O'
        && is_file_letter(column(line, 41))
        && matches!(label(line), Label::Version)
        && blank_past(line, 80)
}
