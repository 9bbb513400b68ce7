// The operation: the most breaks within so many consecutive ticks, and the first tick of the earliest window that has them and
// begins at a break. Two means make the pass quick: 32 ticks at a time (block.rt), and a count to begin with that some window has
// (reached.rt), so that the window seldom grows. Only the time depends on them.
ghost use Rattle.std.specs.Prelude.{◌≡◌, ℕ, ◌≤◌, length};
ghost use Rattle.reading.specs.Verdict.{answer_of};
ghost use Rattle.break_windows.specs.Breaks.{busiest_of, Tells};
ghost use Rattle.breaks.specs.Passes.{PassedTo, PassedAll, first_best};
ghost use Rattle.break_windows.specs.Found.{at, Sought};

use crate::block::pass_block;
use crate::order::climbs_to;
use crate::pass::pass;
use crate::reached::reached;
use break_windows::window::Best;
use reading::refusal::Refusal;

// The pass over the ticks behind the first, as many as the busiest window has breaks: 32 at a time, then those that are left.
fn pass_on(ticks: &[u32], window: u32, first: Best) -> Option<Best>
    requires { (first.count ≤ length ticks.now) × ((c : ℕ) × Sought window ticks.now first.count c first.count first.first) }
    ensures { (c : ℕ) → Sought window ticks.now first.count c first.count first.first → PassedTo window ticks.now (length ticks.now) c result }
{
    let from = first.count;
    let blocks = (ticks.len() - from) / 32;
    let mut best = first;
    for k in 0..blocks {
        best = pass_block(ticks, from + 32 * k, window, best)?;
    }
    pass(ticks, from + 32 * blocks, ticks.len(), window, best)
}

// What a pass begins with, where some window has so many breaks: one break fewer, so that it finds the earliest such window.
fn first_best(ticks: &[u32], most: usize) -> Best
    requires { (1 ≤ length ticks.now) × (1 ≤ most) }
    ensures { result ≡ first_best (at ticks.now 0) most }
{
    if most == 1 {
        Best {
            count: 1,
            first: ticks[0],
        }
    } else {
        Best {
            count: most - 1,
            first: 0,
        }
    }
}

// The pass over all ticks, of which there is at least one.
fn pass_all(ticks: &[u32], window: u32) -> Option<Best>
    requires { (1 ≤ length ticks.now) × (1 ≤ window) }
    ensures { PassedAll window ticks.now result }
{
    let best = first_best(ticks, reached(ticks, window));
    if !climbs_to(ticks, best.count) {
        return None;
    }
    pass_on(ticks, window, best)
}

// The breaks of a list of any length within a window of so many ticks.
pub fn busiest(ticks: &[u32], window: u32) -> Result<Best, Refusal>
    ensures { answer_of result ≡ busiest_of window ticks.now }
{
    if window == 0 {
        return Err(Refusal::Window);
    }
    if ticks.is_empty() {
        return Ok(Best { count: 0, first: 0 });
    }
    pass_all(ticks, window).ok_or(Refusal::Window)
}

// Tells an answer to a caller who lent two numbers: 0, the most breaks and the first tick, or the number of the refusal, which
// leaves both as they were.
pub fn tell(answer: Result<Best, Refusal>, count: &mut usize, first: &mut u32) -> u8
    ensures { Tells count.old first.old (answer_of answer) count.new first.new result }
{
    match answer {
        Ok(best) => {
            *count = best.count;
            *first = best.first;
            0
        }
        Err(refusal) => refusal.number(),
    }
}
