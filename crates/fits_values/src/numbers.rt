// Numbers of the tables: times, numbers with their states, marks. A state stays beside its number: whether the two go together is what is tested.
ghost use Rattle.std.specs.Prelude.{◌≡◌, ◌&&◌};
ghost use Rattle.std.specs.Int.Signed.{lt_z};
ghost use Rattle.rinex.specs.Data.{is_nought};
ghost use Rattle.rinex.specs.Fit.{is_time, number_fits, value_fits, is_mark};

// A count of 10⁻⁷ s before 2100-01-01.
pub fn is_time(t: u64) -> bool
    ensures { result ≡ is_time t }
{
    t < 37869120000000000
}

pub fn is_nought(z: i64) -> bool
    ensures { result ≡ is_nought z }
{
    z == 0
}

// Strictly between the two: no range leaves out both its ends.
fn is_between(z: i64, low: i64, high: i64) -> bool
    ensures { result ≡ (lt_z low z && lt_z z high) }
{
    low < z && z < high
}

// A value: a decimal of 14 columns, 3 of them decimals; 0 is never given.
#[tactic(auto, using(crate::proofs::Ranges::in_14_3))]
pub fn value_fits(state: u8, z: i64) -> bool
    ensures { result ≡ value_fits state z }
{
    if is_nought(z) {
        state == 0
    } else {
        state == 1 && is_between(z, -1_000_000_000_000, 10_000_000_000_000)
    }
}

// A decimal of 15 columns, 12 of them decimals, or none.
#[tactic(auto, using(crate::proofs::Ranges::in_15_12))]
pub fn number_fits_15_12(state: u8, z: i64) -> bool
    ensures { result ≡ number_fits 15 12 state z }
{
    match state {
        0 => is_nought(z),
        1 => is_between(z, -10_000_000_000_000, 100_000_000_000_000),
        _ => false,
    }
}

// A mark up to the highest, or 255 for none.
pub fn is_mark(m: u8, top: u8) -> bool
    ensures { result ≡ is_mark top m }
{
    m <= top || m == 255
}
