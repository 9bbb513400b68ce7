// The places of all automata, in order. A place's number is that of its location.
ghost use Rattle.std.specs.Prelude.{◌<◌, ◌≡◌, not, ◌&&◌, [], ◌∷◌, map, eqb, get_or};
ghost use Rattle.chart_records.specs.Chart.{Chart};
ghost use Rattle.chart_records.specs.Tree.{children};
ghost use Rattle.chart_tree.specs.Table.{Tabled};
ghost use Rattle.flattening.specs.Flatten.{Place, child, pre, post, pairs, enters_by, places, all_places, automaton, enter_pairs};
ghost use Rattle.flatten_places.specs.Tables.{Chartered, FixedIn, Columned, Automated, Paired, Listed};
ghost use Rattle.flatten_places.specs.Filling.{Puts, Rowed, leaving};

use crate::automaton::Automata;
use crate::fixed::Fixed;
use crate::pair::Pairs;
use crate::transition::Transitions;
use chart_tree::table::{self, Tree};
use reading::field::byte_at;

// Of each place its kind, the state or transition that it stands for, the entry before which it is, its automaton, and
// the exits that it is at, as bits.
#[derive(Clone, Copy)]
pub struct Places {
    pub kinds: [u8; Places::COUNT],
    pub values: [u8; Places::COUNT],
    pub marks: [u8; Places::COUNT],
    pub automata: [u8; Places::COUNT],
    pub exits: [u8; Places::COUNT],
    pub count: u8,
}

impl Places {
    pub const COUNT: usize = 192;

    pub const IDLE: u8 = 0;

    pub const CHILD: u8 = 1;

    pub const PRE: u8 = 2;

    pub const POST: u8 = 3;
}

// The same of one place.
#[derive(Clone, Copy)]
struct Row {
    kind: u8,
    value: u8,
    mark: u8,
    automaton: u8,
    exits: u8,
}

// One more place at the end.
fn put(table: &mut Places, row: Row)
    ensures { (c : Chart) (x : Place) → Rowed c x row → Puts c (x ∷ []) [] table.old table.new }
{
    let i = table.count as usize;
    if i >= Places::COUNT {
        return;
    }
    table.kinds[i] = row.kind;
    table.values[i] = row.value;
    table.marks[i] = row.mark;
    table.automata[i] = row.automaton;
    table.exits[i] = row.exits;
    table.count += 1;
}

// Whether s is a child of q.
pub fn is_child(parents: &[u8], q: u8, s: u8) -> bool
    ensures { result ≡ (not (eqb s 0) && eqb (get_or parents.now s 0) q) }
{
    s != 0 && table::is_child(parents, q as usize, s as usize)
}

// The places of the children of q.
fn put_children(table: &mut Places, tree: Tree, fixed: Fixed, q: u8, a: u8)
    ensures { (c : Chart) → Tabled c tree → FixedIn c fixed → a ≡ automaton c q
        → Puts c (map child (children c q)) [] table.old table.new }
{
    for s in 0..tree.states {
        if is_child(&tree.parents, q, s) {
            let row = Row {
                kind: Places::CHILD,
                value: s,
                mark: 0,
                automaton: a,
                exits: byte_at(&fixed.exits, s as usize),
            };
            put(table, row);
        }
    }
}

// The places before the entries of the children of q.
fn put_pres(table: &mut Places, tree: Tree, enters: Pairs, q: u8, a: u8)
    ensures { (c : Chart) → Tabled c tree → Paired (enter_pairs c) enters → a ≡ automaton c q
        → Puts c (map pre (pairs (enters_by c) c.entries (children c q))) [] table.old table.new }
{
    for i in 0..enters.count {
        let s = byte_at(&enters.states, i as usize);
        if is_child(&tree.parents, q, s) {
            let row = Row {
                kind: Places::PRE,
                value: s,
                mark: byte_at(&enters.marks, i as usize),
                automaton: a,
                exits: 0,
            };
            put(table, row);
        }
    }
}

// Whether the transition t leaves a child of q by an exit.
fn is_left(parents: &[u8], sources: &[u8], exits: &[u8], q: u8, t: u8) -> bool
    ensures { result ≡ (eqb (get_or parents.now (get_or sources.now t 0) 0) q && not (eqb (get_or exits.now t 0) 255)) }
{
    let s = byte_at(sources, t as usize) as usize;
    byte_at(parents, s) == q && byte_at(exits, t as usize) != 255
}

// The places after the exits of the children of q.
fn put_posts(table: &mut Places, tree: Tree, transitions: Transitions, q: u8, a: u8)
    ensures { (c : Chart) → Chartered c → Tabled c tree → Columned c transitions → a ≡ automaton c q
        → Puts c (map post (leaving c q)) [] table.old table.new }
{
    for t in 0..transitions.count {
        if is_left(
            &tree.parents,
            &transitions.sources,
            &transitions.exits,
            q,
            t,
        ) {
            let row = Row {
                kind: Places::POST,
                value: t,
                mark: 0,
                automaton: a,
                exits: 0,
            };
            put(table, row);
        }
    }
}

// The places of the automaton a, that of the state q.
fn put_places(
    table: &mut Places,
    tree: Tree,
    fixed: Fixed,
    transitions: Transitions,
    enters: Pairs,
    q: u8,
    a: u8,
)
    ensures { (c : Chart) → Chartered c → Tabled c tree → FixedIn c fixed → Columned c transitions → Paired (enter_pairs c) enters → a ≡ automaton c q
        → Puts c (places c q) [] table.old table.new }
{
    let row = Row {
        kind: Places::IDLE,
        value: q,
        mark: 0,
        automaton: a,
        exits: 0, // an idle automaton is at no exit
    };
    put(table, row);
    put_children(table, tree, fixed, q, a);
    put_pres(table, tree, enters, q, a);
    put_posts(table, tree, transitions, q, a);
}

// The places of all automata.
pub fn places_of(
    tree: Tree,
    fixed: Fixed,
    transitions: Transitions,
    automata: Automata,
    enters: Pairs,
) -> Places
    ensures { (c : Chart) → Chartered c → Tabled c tree → FixedIn c fixed → Columned c transitions → Automated c automata → Paired (enter_pairs c) enters → Listed c (all_places c) result }
{
    let mut places = Places {
        kinds: [0; 192],
        values: [0; 192],
        marks: [0; 192],
        automata: [0; 192],
        exits: [0; 192],
        count: 0,
    };
    for a in 0..automata.count {
        let q = byte_at(&automata.states, a as usize);
        put_places(&mut places, tree, fixed, transitions, enters, q, a);
    }
    places
}
