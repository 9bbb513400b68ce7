// The pass over the ticks, tick by tick. It has two places in the list: that of the tick that is looked at, and that of the
// tick so many places before it as the busiest window so far has breaks. A window that begins there and reaches the tick has
// one more.
ghost use Rattle.std.specs.Prelude.{ℕ, ◌≤◌, length};
ghost use Rattle.break_windows.specs.Found.{Sought};
ghost use Rattle.breaks.specs.Passes.{PassedTo};

use break_windows::window::{Best, in_window};

// The pass over the ticks from one place up to another: what it found, or none where a tick is smaller than the one before it.
pub fn pass(ticks: &[u32], from: usize, to: usize, window: u32, best: Best) -> Option<Best>
    requires { (from ≤ to) × (to ≤ length ticks.now) × ((c : ℕ) × Sought window ticks.now from c best.count best.first) }
    ensures { (c : ℕ) → Sought window ticks.now from c best.count best.first → PassedTo window ticks.now to c result }
{
    let mut count = best.count;
    let mut first = best.first;
    for end in from..to {
        let tick = ticks[end];
        if tick < ticks[end - 1] {
            return None;
        }
        let start = ticks[end - count];
        if in_window(window, start, tick) {
            count += 1;
            first = start;
        }
    }
    Some(Best { count, first })
}
