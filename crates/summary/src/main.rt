// Summarizes the observation file on standard input. Of an input that is too long a byte more is read than it may have.
#![tactic(auto)]

use input::filled;
use std::io::{self, Write};
use summarize::summarize;

fn main(rt: HostRuntime) -> io::Result<()> {
    let mut input = [0; 32769];
    let n = match filled(&mut rt.stdin(), &mut input) {
        Ok(n) => n,
        Err(e) => {
            eprintln!(rt; "standard input: {e}")?;
            return Ok(());
        }
    };
    let answer = summarize(&input[..n]);
    let size = answer.size;
    let bytes = answer.bytes;
    if let Err(e) = rt.stdout().write_all(&bytes[..size]) {
        eprintln!(rt; "standard output: {e}")?;
    }
    Ok(())
}
