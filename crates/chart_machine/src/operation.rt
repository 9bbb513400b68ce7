// The chart machine: start, step, wait and the longest wait. A refusal is an error, and the caller keeps the configuration.
ghost use Rattle.std.specs.Prelude.{◌≡◌, ◌<◌, List, ℕ};
ghost use Rattle.reading.specs.Verdict.{answer_of};
ghost use Rattle.clocks.specs.Clocks.{left_where, limit_left};
ghost use Rattle.chart_records.specs.Chart.{Chart, states};
ghost use Rattle.chart_records.specs.Layout.{Stated};
ghost use Rattle.chart_moves.specs.Machine.{bounds_kept, is_configuration, tested, step, wait, ticks_under, longest, start_of, step_of, wait_of, longest_of};
ghost use Rattle.chart_machine.specs.Configured.{bound_kept, stands, Grown};
ghost use Rattle.chart.specs.Ready.{Ready};

use crate::ticks::bounds_left;
use chart::check::{CheckedFile, checked};
use chart_moves::activity::is_tree;
use chart_moves::completion::complete_exits;
use chart_moves::configuration::Configuration;
use chart_records::header::Counts;
use chart_records::state::bounds_of;
use chart_steps::allowed::{all_active, is_allowed};
use chart_steps::taken;
use chart_tree::table::{Tree, is_in};
use reading::refusal::Refusal;
use steps::step::last_tests;

// Whether the state's bounds are kept, if it is active.
fn bound_kept(rest: &[u8], counts: Counts, given: Configuration, s: u8) -> bool
    ensures { (c : Chart) → Stated rest.now counts c → s < counts.states → result ≡ bound_kept c given s }
{
    if !is_in(&given.active, s as usize) {
        return true;
    }
    let bounds = bounds_of(rest, counts, s);
    clocks::clock::keeps(bounds, given.clocks)
}

// Whether the bounds of all active states are kept.
fn bounds_kept(rest: &[u8], counts: Counts, given: Configuration) -> bool
    ensures { (c : Chart) → Stated rest.now counts c → result ≡ bounds_kept c given }
{
    for s in 0..counts.states {
        if !bound_kept(rest, counts, given, s) {
            return false;
        }
    }
    true
}

// Whether it is a configuration of the chart but for its bounds.
fn stands(counts: Counts, tree: Tree, given: Configuration) -> bool
    ensures { (rest : List ℕ) (c : Chart) → Grown rest counts tree c → result ≡ stands c given }
{
    if !is_tree(tree, given.active) {
        return false;
    }
    if !clocks::clock::zero_past(counts.variables as usize, &given.variables) {
        return false;
    }
    if !clocks::clock::in_limit(counts.clocks as usize, given.clocks) {
        return false;
    }
    clocks::clock::zero_past(counts.clocks as usize, &given.clocks)
}

// Whether it is a configuration of the chart.
fn is_configuration(rest: &[u8], counts: Counts, tree: Tree, given: Configuration) -> bool
    ensures { (c : Chart) → Grown rest.now counts tree c → result ≡ is_configuration c given }
{
    stands(counts, tree, given) && bounds_kept(rest, counts, given)
}

// The configuration after a wait, where the bounds are kept.
fn tested(rest: &[u8], counts: Counts, after: Configuration) -> Result<Configuration, Refusal>
    ensures { (c : Chart) → Stated rest.now counts c → answer_of result ≡ tested c after }
{
    if !bounds_kept(rest, counts, after) {
        return Err(Refusal::Bound);
    }
    Ok(after)
}

// The transitions of the list are taken.
fn step_checked(
    rest: &[u8],
    counts: Counts,
    offsets: &[u32],
    tree: Tree,
    given: Configuration,
    list: &[u16],
) -> Result<Configuration, Refusal>
    ensures { (c : Chart) → Ready rest.now counts offsets.now tree c → answer_of result ≡ step c given list.now }
{
    if !is_configuration(rest, counts, tree, given) {
        return Err(Refusal::ChartConfiguration);
    }
    if !steps::step::known(list, counts.transitions as usize) {
        return Err(Refusal::List);
    }
    let complete = complete_exits(tree, given.active);
    if !all_active(rest, counts, offsets, given, &complete, list) {
        return Err(Refusal::Inactive);
    }
    let allowed = is_allowed(rest, counts, offsets, given, &complete, list);
    let after = taken::after(rest, counts, offsets, tree, given, list);
    let within = after.within;
    let next = after.configuration;
    let kept = bounds_kept(rest, counts, next);
    last_tests(allowed, within, kept)?;
    Ok(next)
}

// So many ticks later.
fn wait_checked(
    rest: &[u8],
    counts: Counts,
    tree: Tree,
    given: Configuration,
    ticks: u32,
) -> Result<Configuration, Refusal>
    ensures { (c : Chart) → Grown rest.now counts tree c → answer_of result ≡ wait c given ticks }
{
    if !is_configuration(rest, counts, tree, given) {
        return Err(Refusal::ChartConfiguration);
    }
    if ticks == 0 {
        return Err(Refusal::Ticks);
    }
    let Some(clocks) = clocks::clock::later(counts.clocks as usize, ticks, given.clocks) else {
        return Err(Refusal::Ticks);
    };
    let moved = Configuration { clocks, ..given };
    tested(rest, counts, moved)
}

// The ticks left in a configuration of the chart, by the same look at its bounds that tells whether it is one.
fn ticks_left(rest: &[u8], counts: Counts, tree: Tree, given: Configuration) -> Option<u32>
    ensures { (c : Chart) → Grown rest.now counts tree c → result ≡ left_where (is_configuration c given) (ticks_under c given (states c) (limit_left c.clocks given.clocks)) }
{
    if !stands(counts, tree, given) {
        return None;
    }
    bounds_left(rest, counts, given)
}

// How long a wait may be.
fn longest_checked(
    rest: &[u8],
    counts: Counts,
    tree: Tree,
    given: Configuration,
) -> Result<u32, Refusal>
    ensures { (c : Chart) → Grown rest.now counts tree c → answer_of result ≡ longest c given }
{
    ticks_left(rest, counts, tree, given).ok_or(Refusal::ChartConfiguration)
}

// The configuration that a chart starts in.
pub fn start(file: &[u8]) -> Result<Configuration, Refusal>
    ensures { answer_of result ≡ start_of file.now }
{
    let checked = checked(file)?;
    Ok(Configuration::start(checked))
}

// The transitions of the list are taken, for a file.
pub fn step(file: &[u8], given: Configuration, list: &[u16]) -> Result<Configuration, Refusal>
    ensures { answer_of result ≡ step_of file.now given list.now }
{
    let CheckedFile {
        counts,
        offsets,
        tree,
    } = checked(file)?;
    step_checked(&file[3..], counts, &offsets, tree, given, list)
}

// So many ticks later, for a file.
pub fn wait(file: &[u8], given: Configuration, ticks: u32) -> Result<Configuration, Refusal>
    ensures { answer_of result ≡ wait_of file.now given ticks }
{
    let CheckedFile { counts, tree, .. } = checked(file)?;
    wait_checked(&file[3..], counts, tree, given, ticks)
}

// How long a wait may be, for a file.
pub fn longest(file: &[u8], given: Configuration) -> Result<u32, Refusal>
    ensures { answer_of result ≡ longest_of file.now given }
{
    let CheckedFile { counts, tree, .. } = checked(file)?;
    longest_checked(&file[3..], counts, tree, given)
}
