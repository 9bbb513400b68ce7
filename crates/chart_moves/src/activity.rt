// The active states: whether they are a tree, and what a step makes of them.
ghost use Rattle.std.specs.Prelude.{◌≡◌, true, false, not, ◌&&◌, List, map, ◌<◌, ltb, eqb, get_or, length, drop};
ghost use Rattle.lists.specs.Lists.{all, below, keep};
ghost use Rattle.chart_records.specs.Chart.{Chart, Transition};
ghost use Rattle.chart_records.specs.Tree.{children};
ghost use Rattle.chart_records.specs.Rules.{parents, entry_marks};
ghost use Rattle.chart_moves.specs.Machine.{is_active, is_tree, active_after};
ghost use Rattle.chart_tree.specs.Table.{Tabled, Rooted, passing};
ghost use Rattle.chart_moves.specs.Active.{Shown, Moved, linked, single, below_none};
ghost use Rattle.chart_moves.specs.declared.configuration.Configuration.{Configuration};

use crate::moves::{Moves, enter_all};
use chart_tree::table::{Tree, is_child, is_in, under};
use reading::field::byte_at;

// Whether the state's parent is active if it is, and the state if its parent is active and parallel.
fn is_linked(parents: &[u8], kinds: &[u8], active: &[bool], s: usize) -> bool
    ensures { (c : Chart) (σ : Configuration) → Shown c σ parents.now kinds.now active.now → s < length c.states → result ≡ linked c σ s }
{
    if s == 0 {
        return true;
    }
    let above = byte_at(parents, s) as usize;
    if is_in(active, s) {
        return is_in(active, above);
    }
    if byte_at(kinds, above) != 2 {
        return true;
    }
    !is_in(active, above)
}

// Whether s, which is not the root, is an active child of q.
fn is_active_child(parents: &[u8], active: &[bool], q: usize, s: usize) -> bool
    ensures { result ≡ (eqb (get_or parents.now s 0) q && get_or active.now s false) }
{
    is_child(parents, q, s) && is_in(active, s)
}

// How many children of q are active.
fn active_children(parents: &[u8], active: &[bool], states: usize, q: usize) -> usize
    ensures { (c : Chart) (σ : Configuration) → Rooted c parents.now → σ.active ≡ active.now → states ≡ length c.states → result ≡ length (keep (is_active σ) (children c q)) }
{
    let mut count = 0;
    for s in 1..states {
        if is_active_child(parents, active, q, s) {
            count += 1;
        }
    }
    count
}

// Whether the state has one active child, if it is sequential and active.
fn is_single(parents: &[u8], kinds: &[u8], active: &[bool], states: usize, q: usize) -> bool
    ensures { (c : Chart) (σ : Configuration) → Shown c σ parents.now kinds.now active.now → states ≡ length c.states → q < length c.states → result ≡ single c σ q }
{
    if byte_at(kinds, q) != 1 {
        return true;
    }
    if !is_in(active, q) {
        return true;
    }
    active_children(parents, active, states, q) == 1
}

// Whether each state is linked, and single.
fn all_placed(parents: &[u8], kinds: &[u8], active: &[bool], states: usize) -> bool
    ensures { (c : Chart) (σ : Configuration) → Shown c σ parents.now kinds.now active.now → states ≡ length c.states → result ≡ all (λ s. linked c σ s && single c σ s) (below states) }
{
    for s in 0..states {
        if !is_linked(parents, kinds, active, s) {
            return false;
        }
        if !is_single(parents, kinds, active, states, s) {
            return false;
        }
    }
    true
}

// Whether nothing is in the set from a place on.
fn none_from(set: &[bool], from: usize) -> bool
    ensures { result ≡ all not (drop from set.now) }
{
    set.iter().skip(from).all(|x| !*x)
}

// Whether the active states are a tree.
pub fn is_tree(t: Tree, active: [bool; 48]) -> bool
    ensures { (c : Chart) (σ : Configuration) → Tabled c t → parents c ≡ true → σ.active ≡ active → result ≡ is_tree c σ }
{
    let states = t.states as usize;
    if !active[0] {
        return false;
    }
    if !all_placed(&t.parents, &t.kinds, &active, states) {
        return false;
    }
    none_from(&active, states)
}

// Whether the state lies below none of the sources.
fn is_below_none(parents: &[u8], sources: &[u8], s: usize) -> bool
    ensures { (c : Chart) → Rooted c parents.now → s < length c.states → result ≡ below_none c sources.now s }
{
    for &source in sources {
        if under(parents, source as usize, s) {
            return false;
        }
    }
    true
}

// Whether a state is active and lies below none of the sources.
fn remains(parents: &[u8], active: &[bool], states: usize, sources: &[u8], s: usize) -> bool
    ensures { (c : Chart) → Rooted c parents.now → states ≡ length c.states → result ≡ (ltb s (length c.states) && (get_or active.now s false && below_none c sources.now s)) }
{
    if s >= states {
        return false;
    }
    if !is_in(active, s) {
        return false;
    }
    is_below_none(parents, sources, s)
}

// The active states without those at or below a source.
pub fn left_below(t: Tree, active: [bool; 48], sources: &[u8]) -> [bool; 48]
    ensures { (c : Chart) → Tabled c t → parents c ≡ true → result ≡ passing 48 c (λ s. get_or active s false && below_none c sources.now s) }
{
    let states = t.states as usize;
    let mut out = [false; 48];
    for s in 0..Tree::STATES {
        out[s] = remains(&t.parents, &active, states, sources, s);
    }
    out
}

// The active states after a step: first all at or below a source are left, then the destinations are entered.
pub fn active_after(t: Tree, active: [bool; 48], moves: Moves) -> [bool; 48]
    ensures { (c : Chart) (σ : Configuration) (ts : List Transition) → Tabled c t → parents c ≡ true → entry_marks c ≡ true → Moved ts moves → σ.active ≡ active → result ≡ map (λ s. ltb s (length c.states) && active_after c σ ts s) (below 48) }
{
    let count = (moves.count as usize).min(Moves::COUNT);
    let left = left_below(t, active, &moves.sources[..count]);
    enter_all(t, moves, left)
}
