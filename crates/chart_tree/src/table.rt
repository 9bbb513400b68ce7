// The tree of states as tables.
ghost use Rattle.std.specs.Prelude.{◌≡◌, false, ◌+◌, ◌≤◌, ◌<◌, eqb, get_or, length};
ghost use Rattle.chart_records.specs.Chart.{Chart, state_at};
ghost use Rattle.chart_records.specs.Tree.{under};
ghost use Rattle.chart_tree.specs.Table.{Begun, Rooted};

use reading::field::byte_at;

// The parent, kind, entry marks and exit marks of each state; past the states 255, 0, 0, 0.
#[derive(Clone, Copy)]
pub struct Tree {
    pub parents: [u8; Tree::STATES],
    pub kinds: [u8; Tree::STATES],
    pub entries: [u16; Tree::STATES],
    pub exits: [u8; Tree::STATES],
    pub states: u8,
}

impl Tree {
    pub const STATES: usize = 48;
}

// Tables for so many states, with none in yet.
pub fn no_states(states: u8) -> Tree
    ensures { (c : Chart) → states ≡ length c.states → states ≤ 48 → Begun c result 0 }
{
    Tree {
        parents: [255; Tree::STATES],
        kinds: [0; Tree::STATES],
        entries: [0; Tree::STATES],
        exits: [0; Tree::STATES],
        states,
    }
}

// The state s is put into the tables, after those before it.
pub fn put_state(tree: &mut Tree, s: usize, parent: u8, kind: u8, entries: u16, exits: u8)
    ensures { (c : Chart) → Begun c tree.old s → s < length c.states → parent ≡ (state_at c s).parent → kind ≡ (state_at c s).kind → entries ≡ (state_at c s).entries → exits ≡ (state_at c s).exits → Begun c tree.new (s + 1) }
{
    if s >= Tree::STATES {
        return;
    }
    tree.parents[s] = parent;
    tree.kinds[s] = kind;
    tree.entries[s] = entries;
    tree.exits[s] = exits;
}

// The marks at a place, none past the end.
pub fn marks_at(marks: &[u16], s: usize) -> u16
    ensures { result ≡ get_or marks.now s 0 }
{
    if s < marks.len() { marks[s] } else { 0 }
}

// Whether s is m or lies below it. A parent's number is smaller than its child's.
pub fn under(parents: &[u8], m: usize, s: usize) -> bool
    ensures { (c : Chart) → Rooted c parents.now → s < length c.states → result ≡ under c m s }
{
    let mut x = s;
    // A loop by `while`: it climbs from parent to parent, and counts no index.
    while x > m {
        let above = byte_at(parents, x) as usize;
        if above >= x {
            return false;
        }
        x = above;
    }
    x == m
}

// Whether x, which is not the root, is a child of s. Flattening, which asks it also of the root, calls this one; the rules, which
// are judged on the bytes of the file, have a function of their own.
pub fn is_child(parents: &[u8], s: usize, x: usize) -> bool
    ensures { result ≡ eqb (get_or parents.now x 0) s }
{
    let above = byte_at(parents, x) as usize;
    above == s
}

// Whether a set has a state, which it has not past its end.
pub fn is_in(set: &[bool], s: usize) -> bool
    ensures { result ≡ get_or set.now s false }
{
    if s < set.len() { set[s] } else { false }
}
