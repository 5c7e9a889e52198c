// Puts texts and numbers into lent columns, from a place on.
#![tactic(auto)]

ghost use Rattle.std.specs.Prelude.{◌≡◌, true, [], ◌∷◌, ◌+◌, ◌≤◌, ◌<◌, ◌^◌, length, set};
ghost use Rattle.std.proofs.lemmas.List.Edits.{sets};
ghost use Rattle.lists.specs.Blank;
ghost use Rattle.write_field.specs.Normal;
ghost use Rattle.write_field.specs.Normal.{decimal_fits, decimal_or_blank};
ghost use Rattle.rinex.specs.Held.{optional, mark_in};
ghost use Rattle.columns.specs.Given.{FitsIf};

pub fn put_byte(out: &mut [u8], at: usize, b: u8)
    requires { at < length out.old }
    ensures { out.new ≡ set out.old at b }
{
    out[at] = b;
}

pub fn put_bytes(out: &mut [u8], at: usize, s: &[u8])
    requires { at + length s.now ≤ length out.old }
    ensures { out.new ≡ sets out.old at s.now }
{
    let end = at + s.len();
    out[at..end].copy_from_slice(s);
}

pub fn put_blanks(out: &mut [u8], at: usize, n: usize)
    requires { at + n ≤ length out.old }
    ensures { out.new ≡ sets out.old at (Blank.blanks n) }
{
    let end = at + n;
    out[at..end].fill(b' ');
}

// n in w columns, with no leading zeros.
pub fn put_whole(out: &mut [u8], at: usize, w: usize, n: u64)
    requires { (at + w ≤ length out.old) × ((1 ≤ w) × (n < 10 ^ w)) }
    ensures { out.new ≡ sets out.old at (Normal.whole w n) }
{
    let end = at + w;
    write_field::whole(n, &mut out[at..end]);
}

// n in w digits.
pub fn put_fixed(out: &mut [u8], at: usize, w: usize, n: u64)
    requires { (at + w ≤ length out.old) × ((1 ≤ w) × (n < 10 ^ w)) }
    ensures { out.new ≡ sets out.old at (Normal.fixed w n) }
{
    let end = at + w;
    write_field::fixed(n, &mut out[at..end]);
}

// z in w columns, d of them decimals.
pub fn put_decimal(out: &mut [u8], at: usize, w: usize, d: usize, z: i64)
    requires { (at + w ≤ length out.old) × (decimal_fits w d z ≡ true) }
    ensures { out.new ≡ sets out.old at (Normal.decimal w d z) }
{
    let end = at + w;
    write_field::decimal(z, d, &mut out[at..end]);
}

// A number in w columns, d of them decimals; blanks where it is missing. The state stands beside the number as in the tables of C: as an Option it
// would be tested at each caller in place of here.
pub fn put_given(out: &mut [u8], at: usize, w: usize, d: usize, state: u8, z: i64)
    requires { (at + w ≤ length out.old) × FitsIf state (decimal_fits w d z) }
    ensures { out.new ≡ sets out.old at (decimal_or_blank w d (optional state z)) }
{
    if state == 0 {
        put_blanks(out, at, w);
    } else {
        put_decimal(out, at, w, d, z);
    }
}

// The column of a mark; 255 is a blank one.
pub fn mark_column(m: u8) -> u8
    ensures { result ∷ [] ≡ Normal.mark (mark_in m) }
{
    if m == 255 {
        return b' ';
    }
    b'0' + m % 10
}
