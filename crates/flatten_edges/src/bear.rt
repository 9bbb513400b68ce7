// The edges that bear transitions.
ghost use Rattle.std.specs.Prelude.{◌≡◌, List, map, ℕ, ◌<◌};
ghost use Rattle.labels.specs.Label.{Label};
ghost use Rattle.chart_records.specs.Chart.{Chart, transition_at};
ghost use Rattle.chart_records.specs.Laid.{Laid};
ghost use Rattle.chart_records.specs.declared.header.Counts.{Counts};
ghost use Rattle.flattening.specs.Flatten.{Place, edge, exit_tested};
ghost use Rattle.flatten_edges.specs.Adding.{Adds};
ghost use Rattle.flatten_edges.specs.Ends.{Signalled};
ghost use Rattle.flatten_edges.specs.Bearing.{BearsEach, Recalls, Bears};

use crate::flag::{Ends, Signals, bearing_head, joining, start_off};
use crate::head::push;
use chart_records::transition::{channel_of, resets_of, signal_of};
use chart_tree::table::Tree;
use flatten_alternatives::alternative::alternatives;
use flatten_places::automaton::Automata;
use flatten_places::fixed::Fixed;
use flatten_places::walk::Tables;
use reading::field::byte_at;

// What a transition's label has before its body.
fn signals_of(rest: &[u8], offsets: &[u32], t: u8) -> Signals
    ensures { (c : Chart) (n : Counts) → Laid rest.now n offsets.now c → t < n.transitions → Signalled (transition_at c t).label result }
{
    Signals {
        signal: signal_of(rest, offsets, t),
        channel: channel_of(rest, offsets, t),
        resets: resets_of(rest, offsets, t),
    }
}

// The exit tested with a set of automata: none where no automaton is.
fn exit_tested(set: u16, exit: u8) -> u8
    ensures { result ≡ exit_tested set exit }
{
    if set == 0 { 255 } else { exit }
}

// The edges that bear a transition and test a set each, of so many sets; off is where the automata's first places are not
// at the exit.
fn bear_each(
    heads: &mut [u8; 13312],
    count: u16,
    e: Ends,
    s: Signals,
    transition: u8,
    exit: u8,
    off: u16,
    sets: &[u16; 1024],
    size: usize,
) -> u16
    ensures { (c : Chart) (p q : Place) (l : Label) (xs : List ℕ) → BearsEach c p q l xs e s exit off sets.now size → Adds heads.old count heads.new result (map (λ x. edge c p q transition (exit_tested x exit) x l) xs) }
{
    if size > 1024 {
        return count;
    }
    let mut n = count;
    for &tested in &sets[..size] {
        let by = exit_tested(tested, exit);
        let h = bearing_head(e, s, transition, by, tested, tested & off);
        n = push(heads, n, h);
    }
    n
}

// The sets of automata by which the state s is left by an exit. They stay in their table for the next transition from s:
// listed is the exit that they are of, 255 at first, and how many they are.
fn sets_by(
    tree: Tree,
    fixed: Fixed,
    automata: Automata,
    s: u8,
    exit: u8,
    sets: &mut [u16; 1024],
    listed: &mut [usize; 2],
) -> usize
    ensures { Recalls tree fixed automata s exit sets.old listed.old sets.new listed.new result }
{
    if listed[0] == exit as usize {
        return listed[1];
    }
    let size = alternatives(tree, fixed, automata, s, exit, sets);
    listed[0] = exit as usize;
    listed[1] = size;
    size
}

// The edges that bear the transition u: from its source, whose number is i, to the place with the number j. Where there
// are too many edges already, no set is looked for.
pub fn bear(
    heads: &mut [u8; 13312],
    count: u16,
    t: &Tables,
    exits: &[u8; 192],
    homes: &[u8; 192],
    rest: &[u8],
    offsets: &[u32],
    i: u8,
    j: u8,
    u: u8,
    sets: &mut [u16; 1024],
    listed: &mut [usize; 2],
) -> u16
    ensures { Bears t.now exits.now homes.now rest.now offsets.now i j u
        heads.old count heads.new result
        sets.old listed.old sets.new listed.new }
{
    if count > 1024 {
        return 1025;
    }
    let e = joining(exits, homes, &t.initials, i, j);
    let s = signals_of(rest, offsets, u);
    let exit = byte_at(&t.transitions.exits, u as usize);
    if exit == 255 {
        return push(heads, count, bearing_head(e, s, u, 255, 0, 0));
    }
    let off = start_off(exits, &t.initials, t.automata.count, exit);
    let size = sets_by(
        t.tree,
        t.fixed,
        t.automata,
        byte_at(&t.transitions.sources, u as usize),
        exit,
        sets,
        listed,
    );
    if size > 1024 {
        return 1025;
    }
    bear_each(heads, count, e, s, u, exit, off, sets, size)
}
