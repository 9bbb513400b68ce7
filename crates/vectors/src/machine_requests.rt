// Requests to a machine, a chart's or a network's.
use answers::output;
use console::machine::Machine;
use reading::refusal::Refusal;
use request_parts::calls::Call;
use request_parts::input::shorts;
use std::io;
use std::io::Write;
use window::tail;

// A configuration as requests have it, and as answers show it.
pub trait Form: Machine {
    // The configuration in front of some bytes.
    fn read(s: &[u8]) -> Self::Configuration;

    fn write<W: Write>(out: &mut W, c: Self::Configuration) -> io::Result<()>;
}

// The configuration that a call leads to, or the refusal.
fn outcome<M: Form, W: Write>(
    out: &mut W,
    answer: Result<M::Configuration, Refusal>,
) -> io::Result<()> {
    match answer {
        Ok(next) => {
            output::text(out, b"ok ")?;
            M::write(out, next)?;
            output::text(out, b"\n")
        }
        Err(refusal) => output::refusal(out, refusal),
    }
}

pub fn start<M: Form, W: Write>(out: &mut W, file: &[u8]) -> io::Result<()> {
    outcome::<M, W>(out, M::start(file))
}

// A step, of which so many numbers stand in front of some bytes.
fn step<M: Form, W: Write>(
    out: &mut W,
    file: &[u8],
    given: M::Configuration,
    numbers: &[u8],
    count: u16,
) -> io::Result<()> {
    let list = shorts(numbers, count);
    outcome::<M, W>(out, M::step(file, given, &list[..count as usize]))
}

// A call from the configuration that stands at a place.
pub fn call<M: Form, W: Write>(
    out: &mut W,
    file: &[u8],
    s: &[u8],
    at: usize,
    c: Call,
) -> io::Result<()> {
    let given = M::read(tail(s, at));
    match c {
        Call::Step(count, from) => step::<M, W>(out, file, given, tail(s, from), count),
        Call::Wait(ticks) => outcome::<M, W>(out, M::wait(file, given, ticks)),
    }
}

// The longest wait of the configuration that stands at a place, or the refusal.
pub fn longest<M: Form, W: Write>(out: &mut W, file: &[u8], s: &[u8], at: usize) -> io::Result<()> {
    match M::longest(file, M::read(tail(s, at))) {
        Ok(ticks) => {
            output::text(out, b"ok ")?;
            output::number(out, ticks as u64)?;
            output::text(out, b"\n")
        }
        Err(refusal) => output::refusal(out, refusal),
    }
}
