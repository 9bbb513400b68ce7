// The calls of the network in a request to run both machines.
ghost use Rattle.std.specs.Prelude.{◌≡◌, ◌≤◌, length};
ghost use Rattle.reading.specs.Reading.{skipped, many};
ghost use Rattle.reading.specs.Places.{onward, end_of, reached, reached_end};
ghost use Rattle.request_parts.specs.Calls.{stepped, waited, body, call, calls, call_of};

use reading::field::{Fault, Read, read_below, read_short, read_word};

// A step has so many numbers, which stand from a place on; a wait has ticks.
#[derive(Clone, Copy)]
pub enum Call {
    Step(u16, usize),
    Wait(u32),
}

// What follows the byte of a step.
fn read_step(s: &[u8], at: usize) -> Read<Call>
    ensures means { call_of s.now result ≡ stepped (onward s.now at) }
    ensures within { end_of result ≤ length s.now }
{
    let (count, from) = read_short(s, at)?;
    let size = 2 * (count as usize);
    if s.len() - from < size {
        Err(Fault::Length)
    } else {
        Ok((Call::Step(count, from), from + size))
    }
}

// What follows the byte of a wait.
fn read_wait(s: &[u8], at: usize) -> Read<Call>
    ensures means { call_of s.now result ≡ waited (onward s.now at) }
    ensures within { end_of result ≤ length s.now }
{
    let (ticks, next) = read_word(s, at)?;
    Ok((Call::Wait(ticks), next))
}

// What follows the byte of a call.
pub fn read_body(s: &[u8], at: usize, kind: u8) -> Read<Call>
    ensures means { call_of s.now result ≡ body kind (onward s.now at) }
    ensures within { end_of result ≤ length s.now }
{
    if kind == 0 {
        read_step(s, at)
    } else {
        read_wait(s, at)
    }
}

// A call, and the place after it.
pub fn read_call(s: &[u8], at: usize) -> Read<Call>
    ensures means { call_of s.now result ≡ call (onward s.now at) }
    ensures within { end_of result ≤ length s.now }
{
    let (kind, next) = read_below(s, at, 2)?;
    read_body(s, next, kind)
}

// The place after so many calls.
fn skip_many(s: &[u8], at: usize, count: u16) -> Result<usize, Fault>
    ensures means { reached s.now tt result ≡ skipped (many count call (onward s.now at)) }
    ensures within { at ≤ length s.now → reached_end result ≤ length s.now }
{
    let mut place = at;
    for _ in 0..count {
        let (_, next) = read_call(s, place)?;
        place = next;
    }
    Ok(place)
}

// The place after all calls: their number stands in front of them.
pub fn skip_calls(s: &[u8], at: usize) -> Result<usize, Fault>
    ensures means { reached s.now tt result ≡ skipped (calls (onward s.now at)) }
    ensures within { reached_end result ≤ length s.now }
{
    let (count, from) = read_short(s, at)?;
    skip_many(s, from, count)
}
