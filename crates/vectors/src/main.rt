// Answers requests from standard input until it ends: checks, flattening, calls of the machines, their longest waits, runs of
// a chart and its network side by side, and counts of weft breaks. Input that is not made of whole requests ends with a line
// that says so.
//
// Requests of every kind are answered by one program, so that the loop over them and its proof stand once. The input may have any
// length: the whole requests in a window are answered, what is left of another is moved to its front, and it is filled again.
#![tactic(auto)]

mod answer;
mod breaks_requests;
mod chart_requests;
mod flatten_requests;
mod machine_requests;
mod network_requests;
mod paired_answers;
mod paired_requests;

ghost use Rattle.std.specs.Prelude.{◌≤◌, IfOk, length};
ghost use Rattle.reading.specs.Places.{reached_end};

use answer::answer;
use answers::output;
use reading::field::Fault;
use requests::request;
use std::io;
use std::io::{Read, Write};

// How many bytes the window has, and so a request at most: twice as many as a chart can have.
const WINDOW: usize = 131072;

// Where answering stops: at a request that is cut off, which may go on in what is read next, or at none.
fn stopped(f: Fault, at: usize) -> Result<usize, Fault>
    ensures { reached_end result ≤ at }
{
    match f {
        Fault::Length => Ok(at),
        Fault::Range => Err(f),
    }
}

// Answers the whole requests in front of some bytes. The place after the last.
fn answer_whole<W: Write>(out: &mut W, s: &[u8]) -> io::Result<Result<usize, Fault>>
    ensures { IfOk result (λ r. reached_end r ≤ length s.now) }
{
    let mut at = 0;
    // A loop by `while`: each request says where the next one begins.
    while at < s.len() {
        match request::read_request(s, at) {
            Ok((asked, next)) => {
                answer(out, s, asked)?;
                at = next;
            }
            Err(f) => return Ok(stopped(f, at)),
        }
    }
    Ok(Ok(at))
}

// What follows a round: another, with so many bytes of a request in front of the window, or none.
fn malformed(out: &mut impl Write) -> io::Result<Option<usize>> {
    output::malformed(out)?;
    Ok(None)
}

// Where the input ends nothing is left of a request.
fn end(out: &mut impl Write, kept: usize) -> io::Result<Option<usize>> {
    if kept == 0 { Ok(None) } else { malformed(out) }
}

// Answers the whole requests in so many bytes of the window, and moves what is left of another to its front.
fn answer_front(out: &mut impl Write, bytes: &mut [u8], full: usize) -> io::Result<Option<usize>>
    requires { full ≤ length bytes.old }
{
    let Ok(at) = answer_whole(out, &bytes[..full])? else {
        return malformed(out);
    };
    window::shift(bytes, at);
    Ok(Some(full - at))
}

// Reads behind the bytes that were kept. A request that fills the window is not read on.
fn read_on(
    source: &mut impl Read,
    out: &mut impl Write,
    bytes: &mut [u8],
    kept: usize,
) -> io::Result<Option<usize>> {
    if bytes.len() <= kept {
        return malformed(out);
    }
    let count = window::fill(source, &mut bytes[kept..])?;
    if count == 0 {
        return end(out, kept);
    }
    answer_front(out, bytes, kept + count)
}

// A proved loop has to end, and nothing says that an input does: the rounds are counted, from a number that no run
// uses up.
fn answer_all(source: &mut impl Read, out: &mut impl Write, bytes: &mut [u8]) -> io::Result<()> {
    let mut kept = 0;
    for _ in 0..u64::MAX {
        let Some(left) = read_on(source, out, bytes, kept)? else {
            return Ok(());
        };
        kept = left;
    }
    Ok(())
}

fn main(rt: HostRuntime) -> io::Result<()> {
    let mut bytes = [0; WINDOW];
    answer_all(&mut rt.stdin(), &mut rt.stdout(), &mut bytes)
}
