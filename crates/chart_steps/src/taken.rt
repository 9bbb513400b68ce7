// What becomes of a configuration when transitions are taken.
ghost use Rattle.std.specs.Prelude.{◌≡◌, true, map};
ghost use Rattle.steps.specs.Moves.{known, all_stay, variables_after, clocks_after};
ghost use Rattle.chart_records.specs.Chart.{Chart, transition_at};
ghost use Rattle.chart_moves.specs.Machine.{after};
ghost use Rattle.chart_moves.specs.Active.{Moved};
ghost use Rattle.chart_records.specs.Laid.{Laid};
ghost use Rattle.chart.specs.Ready.{Ready};

use crate::allowed::chosen;
use chart_moves::activity::active_after;
use chart_moves::configuration::Configuration;
use chart_moves::moves::{Moves, no_moves, with_move};
use chart_records::header::Counts;
use chart_records::transition::{body_of, destination_of, entry_of, resets_of, source_of};
use chart_tree::table::Tree;
use updates::update::NewValues;

// Where the transitions of a list come from and go to, and by which entries.
fn moves_of(rest: &[u8], offsets: &[u32], list: &[u16]) -> Moves
    ensures { (c : Chart) (n : Counts) → Laid rest.now n offsets.now c → known n.transitions list.now ≡ true → Moved (map (transition_at c) list.now) result }
{
    let mut moves = no_moves();
    for &m in list {
        let t = chosen(m);
        let source = source_of(rest, offsets, t);
        let destination = destination_of(rest, offsets, t);
        let entry = entry_of(rest, offsets, t);
        let next = with_move(moves, source, destination, entry);
        moves = next;
    }
    moves
}

// The variables after the updates of the transitions, all of which read `old`.
fn variables_after(
    rest: &[u8],
    counts: Counts,
    offsets: &[u32],
    list: &[u16],
    old: [i32; 16],
) -> NewValues
    ensures within { (c : Chart) → Laid rest.now counts offsets.now c → known counts.transitions list.now ≡ true → result.within ≡ all_stay (map (λ m. (transition_at c m).label) list.now) old }
    ensures values { (c : Chart) → Laid rest.now counts offsets.now c → known counts.transitions list.now ≡ true → result.values ≡ variables_after (map (λ m. (transition_at c m).label) list.now) old }
{
    let mut within = true;
    let mut values = old;
    for &m in list {
        let body = body_of(offsets, chosen(m));
        let next = labels::label::assigned(rest, body, counts.limits(), old, values);
        within = within & next.within;
        values = next.values;
    }
    NewValues { within, values }
}

// The clocks, with those at 0 that a transition resets.
fn clocks_after(rest: &[u8], offsets: &[u32], list: &[u16], clocks: [u32; 8]) -> [u32; 8]
    ensures { (c : Chart) (n : Counts) → Laid rest.now n offsets.now c → known n.transitions list.now ≡ true → result ≡ clocks_after (map (λ m. (transition_at c m).label) list.now) clocks }
{
    let mut after = clocks;
    for &m in list {
        let resets = resets_of(rest, offsets, chosen(m));
        let next = clocks::clock::reset(resets, after);
        after = next;
    }
    after
}

// The configuration after some transitions, and whether their updates stayed in the range: a flag, since the configuration is said
// also where they did not (clause `configuration`).
#[derive(Clone, Copy)]
pub struct Next {
    pub configuration: Configuration,
    pub within: bool,
}

// The same of the transitions of a list.
pub fn after(
    rest: &[u8],
    counts: Counts,
    offsets: &[u32],
    tree: Tree,
    given: Configuration,
    list: &[u16],
) -> Next
    ensures within { (c : Chart) → Ready rest.now counts offsets.now tree c → known counts.transitions list.now ≡ true → result.within ≡ all_stay (map (λ m. (transition_at c m).label) list.now) given.variables }
    ensures configuration { (c : Chart) → Ready rest.now counts offsets.now tree c → known counts.transitions list.now ≡ true → result.configuration ≡ after c (map (transition_at c) list.now) given }
{
    let moves = moves_of(rest, offsets, list);
    let active = active_after(tree, given.active, moves);
    let assigned = variables_after(rest, counts, offsets, list, given.variables);
    let variables = assigned.values;
    let clocks = clocks_after(rest, offsets, list, given.clocks);
    Next {
        within: assigned.within,
        configuration: Configuration {
            active,
            variables,
            clocks,
        },
    }
}
