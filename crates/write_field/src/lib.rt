// Writes fields: the columns are the whole of the lent slice. The promises are specs/Writing.antt, the spellings specs/Normal.antt.
#![tactic(auto)]

ghost use Rattle.std.specs.Prelude.{◌≡◌, cond, ◌++◌, ◌+◌, ◌/◌, ◌^◌, ltb, nat_abs, length};
ghost use Rattle.field.specs.Field.{sign};
ghost use Rattle.write_field.specs.Normal;
ghost use Rattle.write_field.specs.Normal.{whole_fits, decimal_fits};
ghost use Rattle.write_field.specs.Steps.{lead, HasRoom, is_minus};
ghost use Rattle.write_field.specs.Writing.{WritesField, HasDigits};

// 10 to the power of each place.
const POWERS: [u64; 16] = [
    1,
    10,
    100,
    1000,
    10000,
    100000,
    1000000,
    10000000,
    100000000,
    1000000000,
    10000000000,
    100000000000,
    1000000000000,
    10000000000000,
    100000000000000,
    1000000000000000,
];

fn digit(n: u64) -> u8
    ensures { result ≡ Normal.digit n }
{
    b'0' + (n % 10) as u8
}

// How many digits n has; 0 has one.
pub fn count(n: u64) -> usize
    ensures { HasDigits n result }
{
    let mut k = 1;
    let mut rest = n / 10;
    // No `for`: how many turns there are is what is asked for.
    while rest != 0 {
        rest /= 10;
        k += 1;
    }
    k
}

// Whether so many digits hold n; a table tells it sooner than counting.
fn holds(digits: usize, n: u64) -> bool
    ensures { result ≡ ltb n (10 ^ digits) }
{
    if digits < 16 {
        return n < POWERS[digits];
    }
    count(n) <= digits
}

// As many last digits of n as there are columns; returns what is left of n.
fn put_digits(n: u64, out: &mut [u8]) -> u64
    ensures { (result ≡ n / 10 ^ length out.old) × (out.new ≡ Normal.fixed (length out.old) n) }
{
    let mut rest = n;
    for i in (0..out.len()).rev() {
        out[i] = digit(rest);
        rest /= 10;
    }
    rest
}

fn filler(minus: bool) -> u8
    ensures { result ≡ cond minus 45 32 }
{
    if minus { b'-' } else { b' ' }
}

// q under a sign at the right, blanks for leading zeros.
fn put_lead(minus: bool, q: u64, out: &mut [u8])
    ensures { out.new ≡ lead minus (length out.old) q }
{
    let mut rest = q;
    let mut due = minus;
    for i in (0..out.len()).rev() {
        if rest == 0 {
            out[i] = filler(due);
            due = false;
        } else {
            out[i] = digit(rest);
            rest /= 10;
        }
    }
}

// n in as many digits as there are columns.
pub fn fixed(n: u64, out: &mut [u8]) -> bool
    ensures { WritesField (whole_fits (length out.old) n) (Normal.fixed (length out.old) n) out.old out.new result }
{
    if out.len() < count(n) {
        return false;
    }
    put_digits(n, out);
    true
}

// n with no leading zeros, at the right.
pub fn whole(n: u64, out: &mut [u8]) -> bool
    ensures { WritesField (whole_fits (length out.old) n) (Normal.whole (length out.old) n) out.old out.new result }
{
    if out.len() < count(n) {
        return false;
    }
    let last = out.len() - 1;
    out[last] = digit(n);
    put_lead(false, n / 10, &mut out[..last]);
    true
}

fn is_minus(z: i64) -> bool
    ensures { result ≡ is_minus z }
{
    z < 0
}

// z without its sign.
fn size(z: i64) -> u64
    ensures { result ≡ nat_abs z }
{
    z.unsigned_abs()
}

// How many columns the sign and the point take.
fn others(minus: bool) -> usize
    ensures { result ≡ length (sign minus) + 1 }
{
    if minus { 2 } else { 1 }
}

// n in units of the last of d decimals, under a sign, at the right.
fn put_decimal(minus: bool, n: u64, d: usize, out: &mut [u8])
    requires { HasRoom minus n d (length out.old) }
    ensures { out.new ≡ Normal.right (length out.old) (sign minus ++ Normal.plain (length out.old) d n) }
{
    let point = out.len() - d - 1;
    let rest = put_digits(n, &mut out[point + 1..]);
    out[point] = b'.';
    let last = point - 1;
    out[last] = digit(rest);
    put_lead(minus, rest / 10, &mut out[..last]);
}

// z in units of the last of d decimals, at the right.
pub fn decimal(z: i64, d: usize, out: &mut [u8]) -> bool
    ensures { WritesField (decimal_fits (length out.old) d z) (Normal.decimal (length out.old) d z) out.old out.new result }
{
    let minus = is_minus(z);
    let n = size(z);
    let taken = others(minus);
    if out.len() < taken {
        return false;
    }
    let digits = out.len() - taken;
    if digits <= d {
        return false;
    }
    if !holds(digits, n) {
        return false;
    }
    put_decimal(minus, n, d, out);
    true
}
