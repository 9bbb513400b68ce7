// The pass over ticks that come one by one. It needs no ticks but the last, as many as the busiest window has breaks, so that a
// list may be of any length: the last 65,536 are kept, in a ring.
ghost use Rattle.std.specs.Prelude.{◌≡◌, List, [], ◌∷◌, ◌++◌, ℕ, ◌≤◌, ◌<◌};
ghost use Rattle.tick_lines.specs.Rings.{place_of, next_place, no_ticks, Ring, Holds, AddedTo};

use crate::line::Stop;
use break_windows::window::in_window;

// The place of the ring that the next tick is put at, and how many it holds; the most breaks in a window so far, and the first
// tick of the earliest window that has them.
#[derive(Clone, Copy)]
pub struct Recent {
    pub next: usize,
    pub held: usize,
    pub count: usize,
    pub first: u32,
}

// Before the first tick.
pub fn no_ticks() -> Recent
    ensures { result ≡ no_ticks }
{
    Recent {
        next: 0,
        held: 0,
        count: 0,
        first: 0,
    }
}

// The place of the tick that was put so many ticks ago.
fn place_of(next: usize, ago: usize) -> usize
    requires { (next < 65536) × (ago ≤ 65536) }
    ensures { result ≡ place_of next ago }
{
    if ago <= next {
        return next - ago;
    }
    next + 65536 - ago
}

fn next_place(next: usize) -> usize
    ensures { result ≡ next_place next }
{
    if next < 65535 { next + 1 } else { 0 }
}

// The ring with a tick more, and what the pass has found with it.
fn put(ring: &mut [u32], recent: Recent, tick: u32, count: usize, first: u32) -> Recent
    requires { (ts : List ℕ) × Ring ring.old recent.next recent.held ts }
    ensures ticks { (ts : List ℕ) → Ring ring.old recent.next recent.held ts → Ring ring.new result.next result.held (ts ++ (tick ∷ [])) }
    ensures count { result.count ≡ count }
    ensures first { result.first ≡ first }
{
    let at = recent.next;
    ring[at] = tick;
    Recent {
        next: next_place(at),
        held: (recent.held + 1).min(65536),
        count,
        first,
    }
}

// Adds a tick, unless it is smaller than the one before it, or a window would have more than 65,536 breaks.
pub fn add(ring: &mut [u32], recent: Recent, tick: u32, window: u32) -> Result<Recent, Stop>
    requires { (1 ≤ window) × ((ts : List ℕ) × Holds window ring.old recent ts) }
    ensures { (ts : List ℕ) → Holds window ring.old recent ts → AddedTo window ring.new (ts ++ (tick ∷ [])) result }
{
    if recent.held == 0 {
        return Ok(put(ring, recent, tick, 1, tick));
    }
    let next = recent.next;
    if tick < ring[place_of(next, 1)] {
        return Err(Stop::Falls);
    }
    let count = recent.count;
    let start = ring[place_of(next, count)];
    if !in_window(window, start, tick) {
        return Ok(put(ring, recent, tick, count, recent.first));
    }
    if count == 65536 {
        return Err(Stop::Full);
    }
    Ok(put(ring, recent, tick, count + 1, start))
}
