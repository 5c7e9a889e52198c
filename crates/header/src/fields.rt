// Numbers in the columns of a line.
ghost use Rattle.std.specs.Prelude.{◌≡◌, ◌+◌, ◌≤◌, length};
ghost use Rattle.std.specs.Prelude.{Some};
ghost use Rattle.field.specs.Found.{whole_of, decimal_of, second_of};
ghost use Rattle.line.specs.Text.{cols};
ghost use Rattle.header.specs.Lines;

use field::read;
use line::within::columns;

// The whole number of the six columns from `a` on, where it is fit.
pub fn six(line: &[u8], a: usize) -> Option<u64>
    requires { 1 ≤ a }
    ensures { result ≡ whole_of (cols a (a + 5) line.now) }
{
    let mut field = [b' '; 6];
    columns(line, a, &mut field);
    read::whole(&field).unwrap_or(None)
}

// The second of columns 31 to 43, where it is fit.
#[tactic(auto, using(field::proofs::Short::second_told))]
pub fn second(line: &[u8]) -> Option<u64>
    ensures { result ≡ second_of (cols 31 43 line.now) }
{
    let mut field = [b' '; 13];
    columns(line, 31, &mut field);
    read::second(&field).unwrap_or(None)
}

// A number, and 0 where it is below 0.
fn positive(z: i64) -> u64
    ensures { result ≡ Lines.above (Some z) }
{
    if z < 0 { 0 } else { z as u64 }
}

// The thousandths of a field, and 0 where it is unfit or not above 0.
pub fn above(field: &[u8]) -> u64
    requires { length field.now ≤ 18 }
    ensures { result ≡ Lines.above (decimal_of 3 field.now) }
{
    positive(read::decimal(field, 3).unwrap_or(None).unwrap_or(0))
}
