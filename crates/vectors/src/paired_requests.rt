// Requests to run a chart and its network side by side.
use crate::paired_answers::{show_call, show_start};
use answers::output;
use flattener::operation::flatten;
use paired_run::run::Run;
use request_parts::calls::Call;
use request_parts::{calls, input};
use std::io;
use std::io::Write;

// A step, of which so many numbers stand in front of some bytes.
fn step(
    out: &mut impl Write,
    file: &[u8],
    network: &[u8],
    r: Run,
    numbers: &[u8],
    count: u16,
) -> io::Result<Run> {
    let list = input::shorts(numbers, count);
    let size = count as usize;
    let f = paired_run::run::after_step(file, network, r, &list[..size]);
    show_call(out, f)?;
    Ok(f.run)
}

fn wait(out: &mut impl Write, file: &[u8], network: &[u8], r: Run, ticks: u32) -> io::Result<Run> {
    let f = paired_run::run::after_wait(file, network, r, ticks);
    show_call(out, f)?;
    Ok(f.run)
}

// Both machines after a call, whose numbers stand in s.
fn take_call(
    out: &mut impl Write,
    file: &[u8],
    network: &[u8],
    r: Run,
    s: &[u8],
    call: Call,
) -> io::Result<Run> {
    match call {
        Call::Step(count, from) => step(out, file, network, r, window::tail(s, from), count),
        Call::Wait(ticks) => wait(out, file, network, r, ticks),
    }
}

// The calls, after two bytes with their number.
fn take_calls(out: &mut impl Write, file: &[u8], network: &[u8], s: &[u8]) -> io::Result<()> {
    let mut r = paired_run::run::start(file, network);
    show_start(out, r)?;
    let count = input::short(s, 0);
    let mut at = 2;
    for _ in 0..count {
        let Ok((call, next)) = calls::read_call(s, at) else {
            return Ok(());
        };
        r = take_call(out, file, network, r, s, call)?;
        at = next;
    }
    Ok(())
}

fn run_both(out: &mut impl Write, file: &[u8], network: &[u8], s: &[u8]) -> io::Result<()> {
    output::flattened(out, network)?;
    take_calls(out, file, network, s)
}

// A chart, and the calls of its network.
pub fn run(out: &mut impl Write, file: &[u8], s: &[u8]) -> io::Result<()> {
    let mut buffer = [0; 65536];
    match flatten(file, &mut buffer) {
        Ok(size) => run_both(out, file, window::front(&buffer, size), s),
        Err(refusal) => output::refusal(out, refusal),
    }
}
