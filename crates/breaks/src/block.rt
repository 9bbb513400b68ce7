// The pass over 32 ticks at once, where each of them grows the busiest window, or none does. The tests for it have no branch
// that depends on a tick, so that the compiler makes vector instructions of them.
ghost use Rattle.std.specs.Prelude.{◌≡◌, ℕ, ◌+◌, ◌≤◌, ◌<◌, length};
ghost use Rattle.break_windows.specs.Found.{Sought};
ghost use Rattle.breaks.specs.Passes.{PassedTo, climbs_at, block_climbs, apart, quiet_at, block_quiet, grown_where};

use crate::pass::pass;
use break_windows::window::{Best, in_window};

// Whether the tick at a place is not smaller than the one before it.
pub fn climbs_at(ticks: &[u32], i: usize) -> bool
    requires { (1 ≤ i) × (i < length ticks.now) }
    ensures { result ≡ climbs_at ticks.now i }
{
    ticks[i - 1] <= ticks[i]
}

// Whether none of the 32 ticks from a place on is smaller than the one before it.
pub fn block_climbs(ticks: &[u32], from: usize) -> bool
    requires { (1 ≤ from) × (from + 32 ≤ length ticks.now) }
    ensures { result ≡ block_climbs ticks.now from }
{
    let mut climbs = true;
    for k in 0..32 {
        climbs &= climbs_at(ticks, from + k);
    }
    climbs
}

// How far a tick is from another. Where it is smaller the difference wraps: such a list is refused, and a test of which of the two is
// greater would cost more than the difference.
fn apart(start: u32, tick: u32) -> u32
    ensures { result ≡ apart start tick }
{
    tick.wrapping_sub(start)
}

// Whether the tick at a place is not smaller than the one before it, and does not grow a window of so many breaks.
fn quiet_at(ticks: &[u32], i: usize, window: u32, count: usize) -> bool
    requires { (1 ≤ i) × (count ≤ i) × (i < length ticks.now) }
    ensures { result ≡ quiet_at window count ticks.now i }
{
    climbs_at(ticks, i) & (window <= apart(ticks[i - count], ticks[i]))
}

// Whether that is so of each of the 32 ticks from a place on.
fn block_quiet(ticks: &[u32], from: usize, window: u32, count: usize) -> bool
    requires { (1 ≤ from) × (count ≤ from) × (from + 32 ≤ length ticks.now) }
    ensures { result ≡ block_quiet window count ticks.now from }
{
    let mut quiet = true;
    for k in 0..32 {
        quiet &= quiet_at(ticks, from + k, window, count);
    }
    quiet
}

// The pass over 32 ticks of which the last, and so each, is in the window that begins at the first of the last `count` before them.
fn pass_grown(ticks: &[u32], from: usize, count: usize, start: u32) -> Option<Best>
    requires { (1 ≤ from) × (count ≤ from) × (from + 32 ≤ length ticks.now) }
    ensures { result ≡ grown_where (block_climbs ticks.now from) count start }
{
    if !block_climbs(ticks, from) {
        return None;
    }
    Some(Best {
        count: count + 32,
        first: start,
    })
}

// The pass over 32 ticks.
pub fn pass_block(ticks: &[u32], from: usize, window: u32, best: Best) -> Option<Best>
    requires { (from + 32 ≤ length ticks.now) × ((c : ℕ) × Sought window ticks.now from c best.count best.first) }
    ensures { (c : ℕ) → Sought window ticks.now from c best.count best.first → PassedTo window ticks.now (from + 32) c result }
{
    let count = best.count;
    let start = ticks[from - count];
    if in_window(window, start, ticks[from + 31]) {
        return pass_grown(ticks, from, count, start);
    }
    if block_quiet(ticks, from, window, count) {
        return Some(best);
    }
    pass(ticks, from, from + 32, window, best)
}
