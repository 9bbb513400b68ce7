// Counts weft breaks. Their ticks come on standard input, a number to a line, and the first argument is a window of so many
// ticks. What is written is the most breaks within the window, and the first tick of the earliest such window that begins at a
// break.
//
// The input is read once, and may be longer than what is kept of it: the last 65,536 ticks, which suffice as long as no window
// has more breaks than that. A list with such a window is not answered, and is said to have one.
#![tactic(auto)]

ghost use Rattle.std.specs.Prelude.{◌≡◌, List, ℕ, ◌≤◌, length};
ghost use Rattle.tick_lines.specs.Rings.{Holds};

use console::sentence::refusal;
use reading::refusal::Refusal;
use std::io;
use std::io::Write;
use tick_lines::input;
use tick_lines::input::{State, Stopped};
use tick_lines::line::Stop;

// How many ticks are kept.
const ROOM: usize = 65536;

// What the name of one is followed by, for so many.
fn plural(n: u64) -> &'static str {
    if n == 1 { "" } else { "s" }
}

// The most breaks within a window, and where.
fn show_breaks(out: &mut impl Write, count: usize, first: u32, window: u32) -> io::Result<()> {
    writeln!(
        out,
        "at most {count} break{} within {window} tick{}, first in the window from tick {first} on",
        plural(count as u64),
        plural(window as u64),
    )
}

fn show_unread(out: &mut impl Write) -> io::Result<()> {
    out.write_all(b"the input cannot be read\n")
}

// Why reading stopped, and at which line.
fn show_stop(out: &mut impl Write, stopped: Stopped, window: u32) -> io::Result<()> {
    write!(out, "line {}: ", stopped.line)?;
    match stopped.why {
        Stop::Bad => out.write_all(b"no number up to 4,294,967,295\n"),
        Stop::Falls => refusal(out, Refusal::Window),
        Stop::Full => writeln!(
            out,
            "over 65,536 breaks within {window} tick{}, which is more than are counted",
            plural(window as u64),
        ),
    }
}

// What is written at the end of the input, or where reading stopped.
fn show(out: &mut impl Write, read: Result<State, Stopped>, window: u32) -> io::Result<()> {
    match read {
        Ok(state) => show_breaks(out, state.recent.count, state.recent.first, window),
        Err(stopped) => show_stop(out, stopped, window),
    }
}

// The last line may have no line feed.
fn finish(out: &mut impl Write, ring: &mut [u32], state: State, window: u32) -> io::Result<()>
    requires { (1 ≤ window) × ((ts : List ℕ) × Holds window ring.old state.recent ts) }
{
    show(out, input::end_line(ring, state, window), window)
}

// A proved loop has to end, and nothing says that an input does: the rounds are counted, from a number that no run uses up.
fn count(
    source: &mut impl io::Read,
    out: &mut impl Write,
    ring: &mut [u32],
    bytes: &mut [u8],
    window: u32,
) -> io::Result<()>
    requires { (1 ≤ window) × (length ring.old ≡ 65536) }
{
    let mut state = input::start();
    for _ in 0..u64::MAX {
        let Ok(n) = source.read(bytes) else {
            return show_unread(out);
        };
        if n == 0 {
            return finish(out, ring, state, window);
        }
        match input::take_bytes(ring, state, &bytes[..n], window) {
            Ok(next) => state = next,
            Err(stopped) => return show_stop(out, stopped, window),
        }
    }
    Ok(())
}

fn count_within(source: &mut impl io::Read, out: &mut impl Write, window: u32) -> io::Result<()> {
    if window == 0 {
        return refusal(out, Refusal::Window);
    }
    let mut ring = [0u32; ROOM];
    let mut bytes = [0; 65536];
    count(source, out, &mut ring, &mut bytes, window)
}

fn main(rt: HostRuntime) -> io::Result<()> {
    let mut out = rt.stdout();
    let mut word = [0; 4096];
    let length = console::file::first_argument(&rt, &mut word);
    match console::script::number(&word[..length]) {
        Some(window) => count_within(&mut rt.stdin(), &mut out, window),
        None => out.write_all(
            b"the first argument has to be the window: a number from 1 to 4,294,967,295\n",
        ),
    }
}
