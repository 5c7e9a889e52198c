// The entries of an accepted text: a line for each table.
use cases::kept::Prefilled;
use rinex::Head;
use std::fmt::Display;
use std::io;

// A table's name and its entries, each as it is said.
fn table<T, S: Fn(&T) -> io::Result<()>>(
    rt: &impl Print,
    name: &str,
    entries: &[T],
    say: S,
) -> io::Result<()>
    requires { S.IsAlwaysCallable say }
{
    print!(rt; "{name}")?;
    for entry in entries {
        say(entry)?;
    }
    println!(rt)
}

// Each behind a blank.
pub fn plain<T: Display>(rt: &impl Print, name: &str, entries: &[T]) -> io::Result<()> {
    table(rt, name, entries, |entry| print!(rt; " {entry}"))
}

// Each under its sign, at the right of 20 columns.
pub fn signed(rt: &impl Print, name: &str, entries: &[i64]) -> io::Result<()> {
    table(rt, name, entries, |entry| print!(rt; "{entry:>20}"))
}

pub fn head(rt: &impl Print, head: &Head) -> io::Result<()> {
    plain(rt, "  lengths", &head.lengths)?;
    print!(rt; "  letter, first, time system, interval state, interval, carried lines")?;
    println!(rt;
        " {} {} {} {} {} {}",
        head.letter, head.first, head.time_system, head.interval_state, head.interval, head.lines
    )
}

// The three bytes of a code; the first is left out where it is no byte.
fn letters(rt: &impl Print, code: u32) -> io::Result<()> {
    let [above, first, second, third] = code.to_be_bytes();
    if above == 0 {
        rt.write_all(&[first])?;
    }
    rt.write_all(&[second, third])
}

// The places that hold another value than before, and the three bytes there.
pub fn codes(rt: &impl Print, codes: &[u32]) -> io::Result<()> {
    print!(rt; "  codes")?;
    for (place, code) in codes.iter().enumerate() {
        if *code != u32::FILLED {
            print!(rt; " {place} ")?;
            letters(rt, *code)?;
        }
    }
    println!(rt)
}
