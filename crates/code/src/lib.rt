// Observation codes as numbers, three bytes each: which are taken, in the columns of a line, and in a lent table.
#![tactic(auto)]

pub mod known;

ghost use Rattle.std.specs.Prelude.{◌≡◌, true, map, ◌+◌, ◌-◌, ◌*◌, ◌≤◌, ◌<◌, eqb, length, take, drop};
ghost use Rattle.std.proofs.lemmas.List.Edits.{sets};
ghost use Rattle.lists.specs.Lists.{is_in, fresh};
ghost use Rattle.line.specs.Text.{cols};
ghost use Rattle.rinex.specs.Tables.{packed};
ghost use Rattle.rinex.specs.Fit.{unpacked};
ghost use Rattle.rinex.specs.Tests.{codes_at, codes_fit};

use known::{codes, is_taken_by};
use line::within::{blank_columns, column};

// The three columns from `a` on as one number, the first byte highest.
fn code_at(line: &[u8], a: usize) -> u32
    requires { (1 ≤ a) × (a < 100) }
    ensures { unpacked result ≡ cols a (a + 2) line.now }
{
    let first = column(line, a);
    let second = column(line, a + 1);
    let third = column(line, a + 2);
    (first as u32 * 256 + second as u32) * 256 + third as u32
}

// Whether `n` codes of a system stand from column 7 on, a blank before each, and the rest to column 60 is blank.
pub fn codes_fit(line: &[u8], system: usize, n: usize) -> bool
    requires { n ≤ 13 }
    ensures { result ≡ codes_fit system n 7 line.now }
{
    let known = codes();
    for i in 0..n {
        let a = 7 + 4 * i;
        if column(line, a) != b' ' {
            return false;
        }
        if !is_taken_by(&known, system, code_at(line, a + 1)) {
            return false;
        }
    }
    blank_columns(line, 7 + 4 * n, 60)
}

// Whether a code stands in the table from place `from` up to place `to`.
pub fn stands(table: &[u32], from: usize, to: usize, code: u32) -> bool
    requires { (from ≤ to) × (to ≤ length table.now) }
    ensures { result ≡ is_in eqb code (take (to - from) (drop from table.now)) }
{
    table[from..to].contains(&code)
}

// Puts the first `n` codes of a line behind the `before` that stand from place `from` on; stops at one that stands already.
pub fn put_codes(line: &[u8], n: usize, from: usize, before: usize, table: &mut [u32]) -> bool
    requires { (n ≤ 13) × (from + (before + n) ≤ length table.old) }
    ensures told { result ≡ fresh eqb (take before (drop from table.old)) (map packed (codes_at n 7 line.now)) }
    ensures put { result ≡ true → table.new ≡ sets table.old (from + before) (map packed (codes_at n 7 line.now)) }
{
    let start = from + before;
    for i in 0..n {
        let code = code_at(line, 8 + 4 * i);
        if stands(table, from, start + i, code) {
            return false;
        }
        table[start + i] = code;
    }
    true
}
