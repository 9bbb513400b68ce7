// The bytes of the input: ticks, a number to a line.
ghost use Rattle.std.specs.Prelude.{◌≡◌, List, ℕ, ◌≤◌};
ghost use Rattle.tick_lines.specs.Lines.{ended_tick};
ghost use Rattle.tick_lines.specs.Rings.{no_ticks, Holds, AddedTo};
ghost use Rattle.tick_lines.specs.declared.line.Line.TheVariants as Li;
ghost use Rattle.tick_lines.specs.Inputs.{said, line_ended, byte_said, ReadTo, TakenTo};

pub use crate::line::Stop;
use crate::line::{Line, ended_tick, with_byte};
use crate::recent::{Recent, add, no_ticks};

// The ticks of the lines that have ended, and the line that is being read, with its number.
#[derive(Clone, Copy)]
pub struct State {
    pub recent: Recent,
    pub line: Line,
    pub number: u64,
}

// Why reading stopped, and at which line.
#[derive(Clone, Copy)]
pub struct Stopped {
    pub why: Stop,
    pub line: u64,
}

// Before the first line.
pub fn start() -> State
    ensures { result.recent ≡ no_ticks }
{
    State {
        recent: no_ticks(),
        line: Line::Blank,
        number: 1,
    }
}

// The number of the next line.
fn next_number(number: u64) -> u64 {
    number.saturating_add(1)
}

// At the start of a line.
fn next_line(recent: Recent, number: u64) -> State
    ensures recent { result.recent ≡ recent }
    ensures line { result.line ≡ Li.Blank }
{
    State {
        recent,
        line: Line::Blank,
        number: next_number(number),
    }
}

// After the tick of a line.
fn after_tick(added: Result<Recent, Stop>, number: u64) -> Result<State, Stopped>
    ensures { (w : ℕ) (ring ts : List ℕ) → AddedTo w ring ts added → ReadTo w ring (said ts Li.Blank) result }
{
    match added {
        Ok(recent) => Ok(next_line(recent, number)),
        Err(why) => Err(Stopped { why, line: number }),
    }
}

// The line ends.
pub fn end_line(ring: &mut [u32], state: State, window: u32) -> Result<State, Stopped>
    requires { (1 ≤ window) × ((ts : List ℕ) × Holds window ring.old state.recent ts) }
    ensures { (ts : List ℕ) → Holds window ring.old state.recent ts → ReadTo window ring.new (line_ended ts (ended_tick state.line)) result }
{
    let number = state.number;
    match ended_tick(state.line) {
        Ok(None) => Ok(next_line(state.recent, number)),
        Ok(Some(tick)) => after_tick(add(ring, state.recent, tick, window), number),
        Err(why) => Err(Stopped { why, line: number }),
    }
}

// A byte more.
fn take_byte(ring: &mut [u32], state: State, b: u8, window: u32) -> Result<State, Stopped>
    requires { (1 ≤ window) × ((ts : List ℕ) × Holds window ring.old state.recent ts) }
    ensures { (ts : List ℕ) → Holds window ring.old state.recent ts → ReadTo window ring.new (byte_said (said ts state.line) b) result }
{
    if b == b'\n' {
        return end_line(ring, state, window);
    }
    Ok(State {
        line: with_byte(state.line, b),
        ..state
    })
}

// More bytes: what is known after them, or where reading stopped.
pub fn take_bytes(
    ring: &mut [u32],
    state: State,
    bytes: &[u8],
    window: u32,
) -> Result<State, Stopped>
    requires { (1 ≤ window) × ((ts : List ℕ) × Holds window ring.old state.recent ts) }
    ensures { (ts : List ℕ) → Holds window ring.old state.recent ts → TakenTo window ring.new (said ts state.line) bytes.now result }
{
    let mut now = state;
    for &b in bytes {
        now = take_byte(ring, now, b, window)?;
    }
    Ok(now)
}
