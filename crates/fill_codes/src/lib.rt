// The codes of an accepted header, put from their table into the lent one.
#![tactic(auto)]

ghost use Rattle.std.specs.Prelude.{◌≡◌, ℕ, ◌+◌, ◌≤◌, length, get_or, take, drop};
ghost use Rattle.std.proofs.lemmas.List.Edits.{sets};
ghost use Rattle.fill_codes.specs.Codes.{codes_from};

use lists::store::put;

// The n codes of one system, whose first has place p.
fn fill_list(p: usize, n: usize, table: &[u32], codes: &mut [u32])
    requires { p + n ≤ length table.now }
    ensures { codes.new ≡ sets codes.old p (take n (drop p table.now)) }
{
    for i in p..p + n {
        put(codes, i, table[i]);
    }
}

// The codes of each system, as many as it has.
pub fn fill_codes(lengths: [usize; 7], table: &[u32], codes: &mut [u32])
    requires { (length lengths ≡ 7) × (((y : ℕ) → get_or lengths y 0 ≤ 64) × (length table.now ≡ 448)) }
    ensures { codes.new ≡ codes_from 0 lengths table.now codes.old }
{
    for y in 0..7 {
        fill_list(64 * y, lengths[y], table, codes);
    }
}
