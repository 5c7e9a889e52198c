// Runs both sides of each edge of the paper through `read`. The cases stand in the file stdin; src/script.rt says how to read it.
#![tactic(auto)]

mod answer;
mod script;
mod show;
mod tried;

use input::filled;
use std::io;

fn main(rt: HostRuntime) -> io::Result<()> {
    let mut script = [0; 262144];
    let mut text = [0; 81920];
    let n = filled(&mut rt.reader(), &mut script)?;
    script::run(&rt, &script[..n], &mut text)
}
