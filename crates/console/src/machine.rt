// A machine that runs a file by the calls of a script: a chart's or a network's.
ghost use Rattle.std.specs.Prelude.{◌≡◌, IfOk};
ghost use Rattle.reading.specs.Verdict.{answer_of};
ghost use Rattle.console.specs.Machine.{Operations, answer_to, kept_by, after_line};
ghost use Rattle.console.specs.Script.{line_of};

use crate::print;
use crate::script::{Call, Line, is_call, read_line};
use crate::sentence::refused_call;
use reading::refusal::Refusal;
use std::io;
use std::io::Write;

// What a machine does with its configurations. Each operation answers what its definition does.
pub trait Machine {
    type Configuration: Copy;

    ghost operations: { Operations Self.Configuration };

    // What stands for a configuration before the start.
    fn zero() -> Self::Configuration
        ensures { result ≡ operations.zero };

    fn start(file: &[u8]) -> Result<Self::Configuration, Refusal>
        ensures { answer_of result ≡ operations.start file.now };

    fn step(
        file: &[u8],
        c: Self::Configuration,
        list: &[u16],
    ) -> Result<Self::Configuration, Refusal>
        ensures { answer_of result ≡ operations.step file.now c list.now };

    fn wait(file: &[u8], c: Self::Configuration, ticks: u32) -> Result<Self::Configuration, Refusal>
        ensures { answer_of result ≡ operations.wait file.now c ticks };

    fn longest(file: &[u8], c: Self::Configuration) -> Result<u32, Refusal>
        ensures { answer_of result ≡ operations.longest file.now c };

    // The declared part of a configuration.
    fn show<W: Write>(out: &mut W, file: &[u8], c: Self::Configuration) -> io::Result<()>;
}

// Asks for the longest wait, and shows it, or the refusal.
pub fn show_longest<M: Machine, W: Write>(
    out: &mut W,
    file: &[u8],
    c: M::Configuration,
) -> io::Result<()> {
    match M::longest(file, c) {
        Ok(ticks) => print::longest(out, ticks),
        Err(refusal) => refused_call(out, refusal),
    }
}

// What the machine answers to a call that moves it. Any other line is a wait of no ticks, which is refused.
pub fn answer<M: Machine>(
    file: &[u8],
    c: M::Configuration,
    line: Line,
) -> Result<M::Configuration, Refusal>
    ensures { answer_of result ≡ answer_to M.operations file.now c line }
{
    let count = line.count.min(17);
    match line.call {
        Call::Start => M::start(file),
        Call::Step => M::step(file, c, &line.list[..count]),
        Call::Wait(ticks) => M::wait(file, c, ticks),
        _ => M::wait(file, c, 0),
    }
}

// What a refused call leaves: the configuration that it was called on, and of a start none.
pub fn kept<M: Machine>(c: M::Configuration, call: Call) -> M::Configuration
    ensures { result ≡ kept_by M.operations c call }
{
    match call {
        Call::Start => M::zero(),
        _ => c,
    }
}

// One line of a script.
fn take_line<M: Machine, W: Write>(
    out: &mut W,
    file: &[u8],
    c: M::Configuration,
    text: &[u8],
    number: u64,
) -> io::Result<M::Configuration>
    ensures { IfOk result (λ next. next ≡ after_line M.operations file.now c (line_of text.now)) }
{
    let line = read_line(text);
    let call = line.call;
    if !is_call(out, call, text, number)? {
        return Ok(c);
    }
    if let Call::Longest = call {
        show_longest::<M, W>(out, file, c)?;
        return Ok(c);
    }
    match answer::<M>(file, c, line) {
        Ok(next) => {
            M::show(out, file, next)?;
            Ok(next)
        }
        Err(refusal) => {
            refused_call(out, refusal)?;
            Ok(kept::<M>(c, call))
        }
    }
}

// A whole script, from before the start on.
pub fn run<M: Machine, W: Write>(out: &mut W, file: &[u8], lines: &[u8]) -> io::Result<()> {
    let mut c = M::zero();
    for (i, text) in lines.split(|b| *b == b'\n').enumerate() {
        c = take_line::<M, W>(out, file, c, text, i as u64 + 1)?;
    }
    Ok(())
}
