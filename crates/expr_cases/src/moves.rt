// Clocks and sets of moves.
use crate::show::{number, text, truth};
use clocks::clock;
use reading::field::byte_at;
use std::io;
use std::io::Write;
use steps::step;
use steps::step::{Case, Member};

// A value for the first clock and one for the others.
fn first(x: u32, others: u32) -> [u32; 8] {
    let mut t = [others; 8];
    t[0] = x;
    t
}

// A wait from a value of the first clock, on which alone is a bound: whether the clocks stay within the limit, and
// whether the bound is kept.
pub fn show_wait(out: &mut impl Write, bound: u32, value: u32, ticks: u32) -> io::Result<()> {
    let now = first(value, 0);
    let later = clock::later(1, ticks, now);
    truth(out, later.is_some())?;
    truth(
        out,
        clock::keeps(first(bound, 4294967295), later.unwrap_or(now)),
    )
}

// A bound on the first clock and none on the others, joined with the same bound on all.
pub fn show_joined(out: &mut impl Write, bound: u32, other: u32) -> io::Result<()> {
    let joined = clock::join(first(bound, 4294967295), [other; 8]);
    number(out, joined[0] as u64)?;
    number(out, joined[1] as u64)
}

// The first clock after its reset.
pub fn show_reset(out: &mut impl Write, value: u32) -> io::Result<()> {
    let after = clock::reset(1, first(value, 0));
    number(out, after[0] as u64)
}

// A member of a set: signal, channel and owner.
fn member(s: &[u8], i: u8) -> Member {
    let at = 3 * (i as usize);
    Member {
        signal: byte_at(s, at),
        channel: byte_at(s, at + 1),
        owner: byte_at(s, at + 2),
    }
}

// A set of one or two moves, three numbers each. Channel 0 is a rendezvous channel, channel 1 a broadcast channel.
pub fn show_set(out: &mut impl Write, s: &[u8]) -> io::Result<()> {
    let mut m = [member(s, 0); 16];
    m[1] = member(s, 1);
    let count = (s.len() / 3).min(16);
    match step::case_of(&m[..count], 1) {
        Case::Refused => text(out, b" refused"),
        Case::Allowed => text(out, b" allowed"),
        Case::Broadcast(channel) => {
            text(out, b" broadcast")?;
            number(out, channel as u64)
        }
    }
}

// Whether a set that sends by automaton 0 alone is maximal: the automata of the receivers, 255 where one is not active.
pub fn show_maximal(out: &mut impl Write, receivers: &[u8]) -> io::Result<()> {
    truth(out, step::maximal(receivers, &[0]))
}

// Whether a list has edges of four, each once and in order.
pub fn show_known(out: &mut impl Write, list: &[u16]) -> io::Result<()> {
    truth(out, step::known(list, 4))
}
