// What answers a request of each kind.
use crate::machine_requests::{call, longest, start};
use crate::{breaks_requests, chart_requests, flatten_requests, paired_requests};
use chart_calls::Chart;
use network_calls::Network;
use requests::request::{Machine, Operation, Request};
use std::io;
use std::io::Write;
use window::tail;

// Answers a request. What follows its file stands at places of s.
pub fn answer<W: Write>(out: &mut W, s: &[u8], q: Request) -> io::Result<()> {
    let file = q.file;
    match q.operation {
        Operation::Check => chart_requests::check(out, file),
        Operation::Flatten(room) => flatten_requests::flatten(out, file, room),
        Operation::Start(Machine::Chart) => start::<Chart, W>(out, file),
        Operation::Start(Machine::Network) => start::<Network, W>(out, file),
        Operation::Call(Machine::Chart, at, c) => call::<Chart, W>(out, file, s, at, c),
        Operation::Call(Machine::Network, at, c) => call::<Network, W>(out, file, s, at, c),
        Operation::RunBoth(at) => paired_requests::run(out, file, tail(s, at)),
        Operation::Longest(Machine::Chart, at) => longest::<Chart, W>(out, file, s, at),
        Operation::Longest(Machine::Network, at) => longest::<Network, W>(out, file, s, at),
        Operation::Breaks(window) => breaks_requests::count(out, file, window),
    }
}
