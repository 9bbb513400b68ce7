// The ticks left under the bounds of the active states, or that one is broken.
ghost use Rattle.std.specs.Prelude.{◌≡◌, cond, ◌<◌};
ghost use Rattle.clocks.specs.Clocks.{left_where, row_left, limit_left};
ghost use Rattle.chart_records.specs.Chart.{Chart, states, state_at};
ghost use Rattle.chart_records.specs.Layout.{Stated};
ghost use Rattle.chart_moves.specs.Machine.{is_active, bounds_kept, ticks_under};
ghost use Rattle.chart_machine.specs.Configured.{bound_kept};

use chart_moves::configuration::Configuration;
use chart_records::header::Counts;
use chart_records::state::bounds_of;
use chart_tree::table::is_in;
use clocks::left::{limit_left, under_row};

// The ticks left under the bounds of a state, if it is active, and `ticks` at most.
fn left_under(rest: &[u8], counts: Counts, given: Configuration, s: u8, ticks: u32) -> Option<u32>
    ensures { (c : Chart) → Stated rest.now counts c → s < counts.states → result ≡ left_where (bound_kept c given s) (cond (is_active given s) (row_left c.clocks (state_at c s).bounds given.clocks ticks) ticks) }
{
    if !is_in(&given.active, s as usize) {
        return Some(ticks);
    }
    let bounds = bounds_of(rest, counts, s);
    under_row(counts.clocks as usize, bounds, given.clocks, ticks)
}

// The ticks left under the bounds of all active states, and to the limit.
pub fn bounds_left(rest: &[u8], counts: Counts, given: Configuration) -> Option<u32>
    ensures { (c : Chart) → Stated rest.now counts c → result ≡ left_where (bounds_kept c given) (ticks_under c given (states c) (limit_left c.clocks given.clocks)) }
{
    let mut ticks = limit_left(counts.clocks as usize, given.clocks);
    for s in 0..counts.states {
        ticks = left_under(rest, counts, given, s, ticks)?;
    }
    Some(ticks)
}
