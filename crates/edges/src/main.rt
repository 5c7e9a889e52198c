// Runs both sides of each edge through the code, and writes what it answers.
#![tactic(auto)]

mod dates;
mod numbers;

use std::io;

fn main(rt: HostRuntime) -> io::Result<()> {
    numbers::values(&rt)?;
    numbers::widths(&rt)?;
    numbers::wholes(&rt)?;
    numbers::seconds(&rt)?;
    numbers::marks(&rt)?;
    numbers::spellings(&rt)?;
    dates::years(&rt)?;
    dates::times(&rt)?;
    dates::months(&rt, 2023)?;
    dates::months(&rt, 2024)?;
    dates::months(&rt, 2000)?;
    dates::moments(&rt)
}
