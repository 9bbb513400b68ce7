// The order of the first ticks, which the window passes over: every tick is looked at for its order, also where the answer is
// settled.
ghost use Rattle.std.specs.Prelude.{◌≤◌, length};
ghost use Rattle.break_windows.specs.Found.{Climbs};
ghost use Rattle.breaks.specs.Passes.{OrderedTo};

use crate::block::{block_climbs, climbs_at};

// Whether no tick before a place is smaller than the one before it, where that is known of those before another.
fn climbs_on(ticks: &[u32], from: usize, to: usize) -> bool
    requires { (1 ≤ from) × (from ≤ to) × (to ≤ length ticks.now) × Climbs ticks.now from }
    ensures { OrderedTo ticks.now to result }
{
    for end in from..to {
        if !climbs_at(ticks, end) {
            return false;
        }
    }
    true
}

// The same, from the first tick on: 32 at a time, then those that are left.
pub fn climbs_to(ticks: &[u32], to: usize) -> bool
    requires { (1 ≤ to) × (to ≤ length ticks.now) }
    ensures { OrderedTo ticks.now to result }
{
    let blocks = (to - 1) / 32;
    for k in 0..blocks {
        if !block_climbs(ticks, 1 + 32 * k) {
            return false;
        }
    }
    climbs_on(ticks, 1 + 32 * blocks, to)
}
