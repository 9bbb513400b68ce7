// Flattens the chart on standard input: writes the bytes of its network, or the number of the refusal and a line feed.
#![tactic(auto)]

use flattener::operation::flatten;
use std::io;
use std::io::Write;

// Flattens a chart into a buffer of 65,536 bytes.
fn answer(out: &mut impl Write, file: &[u8]) -> io::Result<()> {
    let mut buffer = [0; 65536];
    match flatten(file, &mut buffer) {
        Ok(length) => out.write_all(&buffer[..length]),
        Err(refusal) => writeln!(out, "{}", refusal.number()),
    }
}

// One byte more is read than a chart may have, so that a longer input is refused as such.
fn main(rt: HostRuntime) -> io::Result<()> {
    let mut buffer = [0u8; 65537];
    let n = window::fill(&mut rt.stdin(), &mut buffer)?;
    answer(&mut rt.stdout(), &buffer[..n])
}
