// The rules of a chart's transitions, 10 to 14.
ghost use Rattle.std.specs.Prelude.{◌≡◌, true, ◌<◌};
ghost use Rattle.lists.specs.Lists.{all, below};
ghost use Rattle.chart_records.specs.Chart.{Chart, Transition};
ghost use Rattle.chart_records.specs.Rules.{parents, siblings, exits, entries, apart, transition_rules};
ghost use Rattle.reading.specs.Verdict.{answer_of, verdict_of};
ghost use Rattle.chart_records.specs.Layout.{Stated, once};
ghost use Rattle.chart_records.specs.Laid.{Laid, apart_from};
ghost use Rattle.chart_tree.specs.Table.{Rooted, Tabled};

use chart_records::header::Counts;
use chart_records::state::{entries_of, exits_of, kind_of, parent_of};
use chart_records::transition::{
    channel_of, destination_of, entry_of, exit_of, home_of, signal_of, source_of,
};
use chart_tree::table::{Tree, no_states, put_state, under};
use reading::refusal::Refusal;

// Whether a source and a destination are children of one sequential state.
fn are_siblings(rest: &[u8], counts: Counts, source: u8, destination: u8) -> bool
    ensures { (c : Chart) (t : Transition) → Stated rest.now counts c → source ≡ t.source → destination ≡ t.destination → result ≡ siblings c t }
{
    if source == 0 {
        return false;
    }
    if destination == 0 {
        return false;
    }
    let above = parent_of(rest, counts, source);
    if above != parent_of(rest, counts, destination) {
        return false;
    }
    kind_of(rest, counts, above) == 1
}

// Whether there is an exit just where the source is composite.
fn exit_fits(rest: &[u8], counts: Counts, source: u8, exit: u8) -> bool
    ensures { (c : Chart) (t : Transition) → Stated rest.now counts c → source ≡ t.source → exit ≡ t.exit → result ≡ exits c t }
{
    if kind_of(rest, counts, source) == 0 {
        return exit == 255;
    }
    exit != 255
}

// Whether there is an entry just where the destination is composite, and one that it is marked with.
fn entry_fits(rest: &[u8], counts: Counts, destination: u8, entry: u8) -> bool
    ensures { (c : Chart) (t : Transition) → Stated rest.now counts c → destination ≡ t.destination → entry ≡ t.entry → result ≡ entries c t }
{
    if kind_of(rest, counts, destination) == 0 {
        return entry == 255;
    }
    if entry == 255 {
        return false;
    }
    lists::mark::has(entries_of(rest, counts, destination) as u32, entry as u32)
}

// 10
fn all_siblings(rest: &[u8], counts: Counts, offsets: &[u32]) -> bool
    ensures { (c : Chart) → Laid rest.now counts offsets.now c → result ≡ all (siblings c) c.transitions }
{
    for t in 0..counts.transitions {
        let source = source_of(rest, offsets, t);
        let destination = destination_of(rest, offsets, t);
        if !are_siblings(rest, counts, source, destination) {
            return false;
        }
    }
    true
}

// 11
fn exits_fit(rest: &[u8], counts: Counts, offsets: &[u32]) -> bool
    ensures { (c : Chart) → Laid rest.now counts offsets.now c → result ≡ all (exits c) c.transitions }
{
    for t in 0..counts.transitions {
        let source = source_of(rest, offsets, t);
        let exit = exit_of(rest, offsets, t);
        if !exit_fits(rest, counts, source, exit) {
            return false;
        }
    }
    true
}

// 12
fn entries_fit(rest: &[u8], counts: Counts, offsets: &[u32]) -> bool
    ensures { (c : Chart) → Laid rest.now counts offsets.now c → result ≡ all (entries c) c.transitions }
{
    for t in 0..counts.transitions {
        let destination = destination_of(rest, offsets, t);
        let entry = entry_of(rest, offsets, t);
        if !entry_fits(rest, counts, destination, entry) {
            return false;
        }
    }
    true
}

// Whether two transitions are of no one channel, or their parents do not lie one below the other.
fn is_apart(rest: &[u8], counts: Counts, offsets: &[u32], parents: &[u8], t: u8, u: u8) -> bool
    ensures { (c : Chart) → Laid rest.now counts offsets.now c → Rooted c parents.now → all (siblings c) c.transitions ≡ true → t < counts.transitions → u < counts.transitions → result ≡ apart_from c t u }
{
    if signal_of(rest, offsets, t) == 0 {
        return true;
    }
    if signal_of(rest, offsets, u) == 0 {
        return true;
    }
    if channel_of(rest, offsets, t) != channel_of(rest, offsets, u) {
        return true;
    }
    let a = home_of(rest, counts, offsets, t);
    let b = home_of(rest, counts, offsets, u);
    if a == b {
        return true;
    }
    !under(parents, a as usize, b as usize)
}

fn is_apart_from_all(rest: &[u8], counts: Counts, offsets: &[u32], parents: &[u8], t: u8) -> bool
    ensures { (c : Chart) → Laid rest.now counts offsets.now c → Rooted c parents.now → all (siblings c) c.transitions ≡ true → t < counts.transitions → result ≡ all (apart_from c t) (below counts.transitions) }
{
    for u in 0..counts.transitions {
        if !is_apart(rest, counts, offsets, parents, t, u) {
            return false;
        }
    }
    true
}

// 14
fn all_apart(rest: &[u8], counts: Counts, offsets: &[u32], parents: &[u8]) -> bool
    ensures { (c : Chart) → Laid rest.now counts offsets.now c → Rooted c parents.now → all (siblings c) c.transitions ≡ true → result ≡ apart c }
{
    for t in 0..counts.transitions {
        if !is_apart_from_all(rest, counts, offsets, parents, t) {
            return false;
        }
    }
    true
}

// The tables of the states.
pub fn tree_of(rest: &[u8], counts: Counts) -> Tree
    ensures { (c : Chart) → Stated rest.now counts c → Tabled c result }
{
    let mut tree = no_states(counts.states);
    for s in 0..counts.states {
        let parent = parent_of(rest, counts, s);
        let kind = kind_of(rest, counts, s);
        let entries = entries_of(rest, counts, s);
        let exits = exits_of(rest, counts, s);
        put_state(&mut tree, s as usize, parent, kind, entries, exits);
    }
    tree
}

// The rules of the transitions, in order, or the first that is not kept.
pub fn transitions_checked(
    rest: &[u8],
    counts: Counts,
    offsets: &[u32],
    passed: bool,
    tree: Tree,
) -> Result<(), Refusal>
    ensures { (c : Chart) → Laid rest.now counts offsets.now c → Tabled c tree → parents c ≡ true → passed ≡ all once c.transitions → answer_of result ≡ verdict_of (transition_rules c) }
{
    if !all_siblings(rest, counts, offsets) {
        return Err(Refusal::Siblings);
    }
    if !exits_fit(rest, counts, offsets) {
        return Err(Refusal::Exit);
    }
    if !entries_fit(rest, counts, offsets) {
        return Err(Refusal::Entry);
    }
    if !passed {
        return Err(Refusal::Updates);
    }
    if !all_apart(rest, counts, offsets, &tree.parents) {
        return Err(Refusal::Channel);
    }
    Ok(())
}
