// Runs a chart, the file that the first argument names, from a script of calls on standard input. After each call it
// prints the configuration, or the longest wait where that is asked for, or the number of the refusal and its sentence.
#![tactic(auto)]

use chart_calls::Chart;
use console::file::{first_argument, read_file};
use console::machine;
use std::io;
use window::fill;

// One byte more is read than a chart may have, so that a longer file is refused as such.
fn main(rt: HostRuntime) -> io::Result<()> {
    let mut out = rt.stdout();
    let mut path = [0; 4096];
    let length = first_argument(&rt, &mut path);
    let mut file = [0u8; 65537];
    let size = read_file(&rt, &mut out, &path[..length], &mut file)?;
    let mut lines = [0; 65536];
    let count = fill(&mut rt.stdin(), &mut lines)?;
    machine::run::<Chart, _>(&mut out, &file[..size], &lines[..count])
}
