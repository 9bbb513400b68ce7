// Runs a network, the file that the first argument names, from a script of calls on standard input. After each call it
// prints the configuration, or the longest wait where that is asked for, or the number of the refusal and its sentence.
#![tactic(auto)]

use console::file::{first_argument, read_file};
use console::machine;
use network_calls::Network;
use std::io;
use window::fill;

fn main(rt: HostRuntime) -> io::Result<()> {
    let mut out = rt.stdout();
    let mut path = [0; 4096];
    let length = first_argument(&rt, &mut path);
    let mut file = [0u8; 65536];
    let size = read_file(&rt, &mut out, &path[..length], &mut file)?;
    let mut lines = [0; 65536];
    let count = fill(&mut rt.stdin(), &mut lines)?;
    machine::run::<Network, _>(&mut out, &file[..size], &lines[..count])
}
