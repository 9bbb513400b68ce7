// The test of a bound, and the ticks left under it and under the bounds of a row.
//
// Bounds are tested nowhere else: `keeps`, and with it 17, 26 and 21, asks `ticks_left`. That a bound is kept just where the
// clock is at most the bound is the law `kept_is`. A bound that is not there, 4,294,967,295, needs no case: it leaves what the
// limit leaves. 22 is about the limit alone, and `later`, which computes the clocks after a wait, tells it.
ghost use Rattle.std.specs.Prelude.{◌≡◌, ◌-◌, min};
ghost use Rattle.reading.specs.Verdict.{answer_of};
ghost use Rattle.clocks.specs.Clocks.{clock_limit, left_where, ticks_left, fewest, keeps, row_left, limit_left};
ghost use Rattle.clocks.specs.Longest.{Tells};

use crate::clock::{CLOCK_LIMIT, NO_BOUND, keeps};
use reading::refusal::Refusal;

// The ticks from a clock to its bound or the limit, whichever is less; none from a clock that is past it.
fn ticks_to(bound: u32, clock: u32) -> u32
    ensures { result ≡ min bound clock_limit - clock }
{
    bound.min(CLOCK_LIMIT).saturating_sub(clock)
}

// The test of a bound: the ticks left before the clock passes it or the limit, and none where it is broken.
pub fn ticks_left(bound: u32, clock: u32) -> Option<u32>
    ensures { result ≡ ticks_left bound clock }
{
    if clock <= bound {
        Some(ticks_to(bound, clock))
    } else {
        None
    }
}

// The fewest of the ticks left under a bound and of others. A broken bound leaves none.
pub fn fewest(left: Option<u32>, others: u32) -> u32
    ensures { result ≡ fewest left others }
{
    match left {
        Some(n) => n.min(others),
        None => 0,
    }
}

// The ticks left for the first `count` clocks under the bounds of a row, and `ticks` at most.
fn row_left(count: usize, bounds: [u32; 8], clocks: [u32; 8], ticks: u32) -> u32
    ensures { result ≡ row_left count bounds clocks ticks }
{
    let mut left = ticks;
    for i in 0..count.min(8) {
        left = fewest(ticks_left(bounds[i], clocks[i]), left);
    }
    left
}

// The same where clocks keep the row, and none where they break a bound of it.
pub fn under_row(count: usize, bounds: [u32; 8], clocks: [u32; 8], ticks: u32) -> Option<u32>
    ensures { result ≡ left_where (keeps bounds clocks) (row_left count bounds clocks ticks) }
{
    if keeps(bounds, clocks) {
        Some(row_left(count, bounds, clocks, ticks))
    } else {
        None
    }
}

// The ticks left for the first `count` clocks where there is no bound.
pub fn limit_left(count: usize, clocks: [u32; 8]) -> u32
    ensures { result ≡ limit_left count clocks }
{
    row_left(count, [NO_BOUND; 8], clocks, u32::MAX)
}

// Tells the longest wait to a caller who lent ticks: 0 and the ticks, or the number of the refusal, which leaves the ticks as
// they were.
pub fn tell(longest: Result<u32, Refusal>, ticks: &mut u32) -> u8
    ensures { Tells ticks.old (answer_of longest) ticks.new result }
{
    match longest {
        Ok(n) => {
            *ticks = n;
            0
        }
        Err(refusal) => refusal.number(),
    }
}
