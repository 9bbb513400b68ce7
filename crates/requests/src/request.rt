// A request: a file, and what is asked of it.
ghost use Rattle.std.specs.Prelude.{◌≡◌, ◌≤◌, ◌<◌, length};
ghost use Rattle.reading.specs.Places.{onward, end_of};
ghost use Rattle.requests.specs.Requests.{size, lent, called, run, longest_from, windowed, operation, request, operation_of, request_of, Beyond};

use reading::field::{Fault, Read, left, read_below, read_word};
use request_parts::calls::{Call, read_body, skip_calls};
use request_parts::input::read_file;

#[derive(Clone, Copy)]
pub enum Machine {
    Chart,
    Network,
}

// What is asked of a file: flattening into a buffer of so many bytes; a call of a machine from the configuration that
// stands at a place; calls that stand from a place on, with their number in front; the longest wait of the configuration
// that stands at a place; the weft breaks within a window of so many ticks, the file being the ticks of the breaks.
#[derive(Clone, Copy)]
pub enum Operation {
    Check,
    Flatten(u32),
    Start(Machine),
    Call(Machine, usize, Call),
    RunBoth(usize),
    Longest(Machine, usize),
    Breaks(u32),
}

// The file's bytes, and what is asked of them.
#[derive(Clone, Copy)]
pub struct Request<'a> {
    pub file: &'a [u8],
    pub operation: Operation,
}

// The length of the buffer that is lent.
fn read_lent(s: &[u8], at: usize) -> Read<Operation>
    ensures means { operation_of s.now result ≡ lent (onward s.now at) }
    ensures within { end_of result ≤ length s.now }
{
    let (room, next) = read_word(s, at)?;
    if room <= 65536 {
        Ok((Operation::Flatten(room), next))
    } else {
        Err(Fault::Range)
    }
}

// How many bytes a configuration has.
fn size(m: Machine) -> usize
    ensures { result ≡ size m }
{
    match m {
        Machine::Chart => 144,
        Machine::Network => 128,
    }
}

// A configuration, and a call.
fn read_called(s: &[u8], at: usize, m: Machine, kind: u8) -> Read<Operation>
    ensures means { operation_of s.now result ≡ called m kind (onward s.now at) }
    ensures within { end_of result ≤ length s.now }
{
    let taken = size(m);
    if left(s, at) < taken {
        return Err(Fault::Length);
    }
    let (call, next) = read_body(s, at + taken, kind)?;
    Ok((Operation::Call(m, at, call), next))
}

// Calls.
fn read_run(s: &[u8], at: usize) -> Read<Operation>
    ensures means { operation_of s.now result ≡ run (onward s.now at) }
    ensures within { end_of result ≤ length s.now }
{
    let next = skip_calls(s, at)?;
    Ok((Operation::RunBoth(at), next))
}

// A configuration alone.
fn read_longest(s: &[u8], at: usize, m: Machine) -> Read<Operation>
    ensures means { operation_of s.now result ≡ longest_from m (onward s.now at) }
    ensures within { end_of result ≤ length s.now }
{
    let taken = size(m);
    if left(s, at) < taken {
        Err(Fault::Length)
    } else {
        Ok((Operation::Longest(m, at), at + taken))
    }
}

// How many ticks a window has: any number of four bytes.
fn read_window(s: &[u8], at: usize) -> Read<Operation>
    ensures means { operation_of s.now result ≡ windowed (onward s.now at) }
    ensures within { end_of result ≤ length s.now }
{
    let (window, next) = read_word(s, at)?;
    Ok((Operation::Breaks(window), next))
}

// What follows the file.
fn read_operation(s: &[u8], at: usize, code: u8) -> Read<Operation>
    requires { (at ≤ length s.now) × (code < 12) }
    ensures means { operation_of s.now result ≡ operation code (onward s.now at) }
    ensures within { end_of result ≤ length s.now }
{
    match code {
        0 => Ok((Operation::Check, at)),
        1 => read_lent(s, at),
        2 => Ok((Operation::Start(Machine::Chart), at)),
        3 => read_called(s, at, Machine::Chart, 0),
        4 => read_called(s, at, Machine::Chart, 1),
        5 => Ok((Operation::Start(Machine::Network), at)),
        6 => read_called(s, at, Machine::Network, 0),
        7 => read_called(s, at, Machine::Network, 1),
        8 => read_run(s, at),
        9 => read_longest(s, at, Machine::Chart),
        10 => read_longest(s, at, Machine::Network),
        _ => read_window(s, at),
    }
}

// The request at a place, and the place after it. It is cut off, which is a fault of the length, or out of range, or whole.
pub fn read_request(s: &[u8], at: usize) -> Read<Request<'_>>
    ensures means { request_of s.now result ≡ request (onward s.now at) }
    ensures within { end_of result ≤ length s.now }
    ensures beyond { Beyond at result }
{
    let (code, next) = read_below(s, at, 12)?;
    let (file, to) = read_file(s, next)?;
    let (operation, end) = read_operation(s, to, code)?;
    Ok((Request { file, operation }, end))
}
