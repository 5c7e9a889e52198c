// Dates and times of day, 1980 to 2099, and their moments: counts of 10⁻⁷ s since 1980-01-01 00:00:00. The rule is specs/Moment.antt.
#![tactic(auto)]

ghost use Rattle.std.specs.Prelude.{◌≡◌, ◌≤◌, ◌<◌};
ghost use Rattle.moment.specs.Moment.{leap, year_days, month_days, sum_to};
ghost use Rattle.moment.specs.Promises.{Counted, Dated};
ghost use Rattle.moment.specs.Steps.{InBlock, Numbered};

// A date and a time of day; the second in ticks of 10⁻⁷ s.
#[derive(Clone, Copy, Debug, PartialEq, Eq)]
pub struct Date {
    pub year: u64,
    pub month: u64,
    pub day: u64,
    pub hour: u64,
    pub minute: u64,
    pub ticks: u64,
}

// A block in a row of blocks, and a place in it.
#[derive(Clone, Copy)]
struct Place {
    block: u64,
    rest: u64,
}

// The days of each month; February's in a year that is not a leap year.
const MONTHS: [u64; 12] = [31, 28, 31, 30, 31, 30, 31, 31, 30, 31, 30, 31];

#[tactic(auto, unfolding(crate::specs::Moment::leap))]
fn is_leap(y: u64) -> bool
    ensures { result ≡ leap y }
{
    y % 4 == 0 && (y % 100 != 0 || y % 400 == 0)
}

// The days of the month that is k months after January.
fn month_days(l: bool, k: usize) -> u64
    requires { k < 12 }
    ensures { (result ≡ month_days l k) × (result ≤ 31) }
{
    if l && k == 1 {
        return 29;
    }
    MONTHS[k]
}

// The days before that month.
fn before_month(l: bool, m: usize) -> u64
    requires { m ≤ 12 }
    ensures { (result ≡ sum_to (month_days l) m) × (result ≤ 366) }
{
    let mut s = 0;
    for k in 0..m {
        s += month_days(l, k);
    }
    s
}

// The number of a day, counted from 1980-01-01, where there is such a day.
fn day_of(year: u64, month: u64, day: u64) -> Option<u64>
    ensures { Numbered year month day result }
{
    if !(1980..=2099).contains(&year) || !(1..=12).contains(&month) || day < 1 {
        return None;
    }
    let l = is_leap(year);
    let m = (month - 1) as usize;
    if month_days(l, m) < day {
        return None;
    }
    // From 1980 to 2099 every fourth year is a leap year.
    let k = year - 1980;
    let b = before_month(l, m);
    Some(365 * k + (k + 3) / 4 + b + (day - 1))
}

// The moment of a date, where there is such a date.
#[tactic(auto, using(crate::proofs::Days::days_below), unfolding(crate::specs::Moment::days, crate::specs::Moment::instant))]
pub fn moment_of(d: Date) -> Option<u64>
    ensures { Counted d result }
{
    if 24 <= d.hour || 60 <= d.minute || 600_000_000 <= d.ticks {
        return None;
    }
    let n = day_of(d.year, d.month, d.day)?;
    Some(((n * 24 + d.hour) * 60 + d.minute) * 600_000_000 + d.ticks)
}

// The year that a day is in, counted from 1980, and the day in it: 1461 days are four years, the first a leap year.
fn year_at(day: u64) -> Place
    requires { day < 43830 }
    ensures { InBlock year_days 120 day result.block result.rest }
{
    let c = day / 1461;
    let r = day % 1461;
    if r < 366 {
        return Place {
            block: 4 * c,
            rest: r,
        };
    }
    let s = r - 366;
    Place {
        block: 4 * c + 1 + s / 365,
        rest: s % 365,
    }
}

// The month that a day of a year is in, counted from January, and the day in it.
fn month_at(l: bool, day: u64) -> Place
    requires { day < sum_to (month_days l) 12 }
    ensures { InBlock (month_days l) 12 day result.block result.rest }
{
    // No `for`: the months are passed until one is too long, and no count of them ends it.
    let mut m: usize = 0;
    let mut r = day;
    let mut n = 31;
    while n <= r {
        r -= n;
        m += 1;
        n = month_days(l, m);
    }
    Place {
        block: m as u64,
        rest: r,
    }
}

// The date at a moment, where that is not past 2099.
#[tactic(auto, using(crate::proofs::Days::instant_below))]
pub fn date_of(t: u64) -> Option<Date>
    ensures { Dated t result }
{
    let minutes = t / 600_000_000;
    let hours = minutes / 60;
    let day = hours / 24;
    if 43830 <= day {
        return None;
    }
    let y = year_at(day);
    let year = 1980 + y.block;
    let m = month_at(is_leap(year), y.rest);
    Some(Date {
        year,
        month: 1 + m.block,
        day: 1 + m.rest,
        hour: hours % 24,
        minute: minutes % 60,
        ticks: t % 600_000_000,
    })
}
