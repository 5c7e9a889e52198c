// The epoch record, in 56 columns.
ghost use Rattle.std.specs.Prelude.{◌≡◌, true, ℕ, Some, ◌∷◌, ◌++◌, ◌+◌, ◌≤◌, ◌<◌, length};
ghost use Rattle.std.proofs.lemmas.List.Edits.{sets};
ghost use Rattle.lists.specs.Blank.{blanks};
ghost use Rattle.write_field.specs.Normal.{decimal_fits, digit, fixed, whole};
ghost use Rattle.moment.specs.Moment.{Fit};
ghost use Rattle.rinex.specs.Fit.{is_time};
ghost use Rattle.rinex.specs.Normal.{time_text, epoch_time_text, epoch_body};
ghost use Rattle.rinex.specs.Held.{optional};
ghost use Rattle.columns.specs.Given.{FitsIf};

use columns::{put_blanks, put_byte, put_bytes, put_decimal, put_fixed, put_given, put_whole};
use moment::{Date, date_of};
use rinex::EpochEntry;

// A blank and two digits.
fn put_two(out: &mut [u8], at: usize, n: u64)
    requires { (at + 3 ≤ length out.old) × (n < 100) }
    ensures { out.new ≡ sets out.old at (32 ∷ fixed 2 n) }
{
    put_byte(out, at, b' ');
    put_fixed(out, at + 1, 2, n);
}

// A date and its time of day, in 27 columns.
fn put_date(out: &mut [u8], at: usize, d: Date)
    requires { (at + 27 ≤ length out.old) × Fit d }
    ensures { out.new ≡ sets out.old at (time_text d) }
{
    put_whole(out, at, 4, d.year);
    put_two(out, at + 4, d.month);
    put_two(out, at + 7, d.day);
    put_two(out, at + 10, d.hour);
    put_two(out, at + 13, d.minute);
    put_decimal(out, at + 16, 11, 7, d.ticks as i64);
}

// A time in 27 columns; blanks where it is missing.
fn put_time(out: &mut [u8], at: usize, time: Option<u64>)
    requires { (at + 27 ≤ length out.old) × ((t : ℕ) → time ≡ Some t → is_time t ≡ true) }
    ensures { out.new ≡ sets out.old at (epoch_time_text time) }
{
    let Some(t) = time else {
        put_blanks(out, at, 27);
        return;
    };
    if let Some(d) = date_of(t) {
        put_date(out, at, d);
    }
}

// The flag behind two blanks, the count, and six blanks.
fn put_counts(out: &mut [u8], flag: u8, count: u16)
    requires { (length out.old ≡ 56) × (count < 1000) }
    ensures { out.new ≡ sets out.old 29 (blanks 2 ++ (digit flag ∷ (whole 3 count ++ blanks 6))) }
{
    put_blanks(out, 29, 2);
    put_byte(out, 31, b'0' + flag % 10);
    put_whole(out, 32, 3, count as u64);
    put_blanks(out, 35, 6);
}

pub fn epoch_columns(e: EpochEntry, out: &mut [u8])
    requires { (length out.old ≡ 56) × ((e.count < 1000) × (FitsIf e.time_state (is_time e.time) × FitsIf e.clock_state (decimal_fits 15 12 e.clock))) }
    ensures { out.new ≡ epoch_body (epoch_time_text (optional e.time_state e.time)) e.flag e.count (optional e.clock_state e.clock) }
{
    let time = (e.time_state != 0).then_some(e.time);
    put_bytes(out, 0, b"> ");
    put_time(out, 2, time);
    put_counts(out, e.flag, e.count);
    put_given(out, 41, 15, 12, e.clock_state, e.clock);
}
