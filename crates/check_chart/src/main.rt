// Checks the chart on standard input: it passes, or the number of the refusal and its sentence.
#![tactic(auto)]

use std::io;
use std::io::Write;

fn verdict(out: &mut impl Write, file: &[u8]) -> io::Result<()> {
    match chart::check::check(file) {
        Ok(()) => console::print::text(out, b"passes\n"),
        Err(refusal) => console::sentence::refusal(out, refusal),
    }
}

// One byte more is read than a chart may have, so that a longer input is refused as such.
fn main(rt: HostRuntime) -> io::Result<()> {
    let mut buffer = [0u8; 65537];
    let n = window::fill(&mut rt.stdin(), &mut buffer)?;
    verdict(&mut rt.stdout(), &buffer[..n])
}
