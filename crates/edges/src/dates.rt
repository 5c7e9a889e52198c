// Dates and moments, both ways.
use moment::Date;
use std::{fmt, io};

// A date, as it is shown.
#[derive(Clone, Copy)]
struct Shown(Date);

impl fmt::Display for Shown {
    fn fmt<W: fmt::Write>(&self, f: &mut fmt::Formatter<W>) -> fmt::Result {
        let Date {
            year,
            month,
            day,
            hour,
            minute,
            ticks,
        } = self.0;
        write!(
            f,
            "{year}-{month:02}-{day:02} {hour:02}:{minute:02} and {ticks}"
        )
    }
}

// The date, its moment, and whether the moment's date is the date.
fn show(
    rt: &impl Print,
    year: u64,
    month: u64,
    day: u64,
    hour: u64,
    minute: u64,
    ticks: u64,
) -> io::Result<()> {
    let d = Date {
        year,
        month,
        day,
        hour,
        minute,
        ticks,
    };
    match moment::moment_of(d) {
        Some(t) => println!(rt; "{} is {t}", Shown(d)),
        None => println!(rt; "{} unfit", Shown(d)),
    }
}

fn back(rt: &impl Print, t: u64) -> io::Result<()> {
    match moment::date_of(t) {
        Some(d) => println!(rt; "{t} is {}", Shown(d)),
        None => println!(rt; "{t} past 2099"),
    }
}

pub fn years(rt: &impl Print) -> io::Result<()> {
    show(rt, 2006, 3, 24, 13, 10, 540000000)?;
    show(rt, 1980, 1, 1, 0, 0, 0)?;
    show(rt, 1979, 12, 31, 23, 59, 599999999)?;
    show(rt, 2099, 12, 31, 23, 59, 599999999)?;
    show(rt, 2100, 1, 1, 0, 0, 0)?;
    show(rt, 0, 1, 1, 0, 0, 0)?;
    show(rt, 18446744073709551615, 1, 1, 0, 0, 0)
}

pub fn times(rt: &impl Print) -> io::Result<()> {
    show(rt, 2024, 12, 31, 23, 59, 599999999)?;
    show(rt, 2024, 12, 31, 23, 59, 600000000)?;
    show(rt, 2024, 12, 31, 23, 60, 0)?;
    show(rt, 2024, 12, 31, 24, 0, 0)?;
    show(rt, 2025, 1, 1, 0, 0, 0)?;
    show(rt, 2024, 0, 1, 0, 0, 0)?;
    show(rt, 2024, 13, 1, 0, 0, 0)
}

// The days at both ends of a month.
fn month(rt: &impl Print, year: u64, month: u64) -> io::Result<()> {
    for day in [0, 1, 28, 29, 30, 31, 32] {
        show(rt, year, month, day, 0, 0, 0)?;
    }
    Ok(())
}

pub fn months(rt: &impl Print, year: u64) -> io::Result<()> {
    for m in 1..=12 {
        month(rt, year, m)?;
    }
    Ok(())
}

pub fn moments(rt: &impl Print) -> io::Result<()> {
    back(rt, 0)?;
    back(rt, 863999999999)?;
    back(rt, 864000000000)?;
    back(rt, 8276730540000000)?;
    back(rt, 37869119999999999)?;
    back(rt, 37869120000000000)?;
    back(rt, 18446744073709551615)
}
