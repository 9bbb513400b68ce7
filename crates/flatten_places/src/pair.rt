// The pairs of a composite state and an entry or an exit that have a channel.
ghost use Rattle.std.specs.Prelude.{ℕ, ◌+◌, ◌≤◌, ◌<◌, ◌≡◌, ◌||◌, List, ◌∷◌, ◌++◌, eqb, length, get_or};
ghost use Rattle.lists.specs.Lists.{has, below};
ghost use Rattle.chart_records.specs.Chart.{Chart};
ghost use Rattle.flattening.specs.Flatten.{Pair, pairs, enter_pairs, exit_pairs};
ghost use Rattle.flatten_places.specs.Tables.{Columned, Paired};
ghost use Rattle.flatten_places.specs.Filling.{PairedTo, pairs_of, Named};

use crate::transition::Transitions;
use chart_tree::table::marks_at;
use lists::mark::has;
use reading::field::byte_at;

#[derive(Clone, Copy)]
pub struct Pairs {
    pub states: [u8; Pairs::COUNT],
    pub marks: [u8; Pairs::COUNT],
    pub count: u8,
}

impl Pairs {
    pub const COUNT: usize = 64;
}

fn no_pairs() -> Pairs
    ensures { (whole : List Pair) → PairedTo whole whole result }
{
    Pairs {
        states: [0; 64],
        marks: [0; 64],
        count: 0,
    }
}

// The pairs with one more.
fn with_pair(p: Pairs, s: u8, m: u8) -> Pairs
    ensures { (whole rest : List Pair) → PairedTo whole (record { state = s; mark = m } ∷ rest) p → length whole ≤ 64 → PairedTo whole rest result }
{
    let i = p.count as usize;
    if i >= Pairs::COUNT {
        return p;
    }
    let mut next = p;
    next.states[i] = s;
    next.marks[i] = m;
    next.count = p.count + 1;
    next
}

// The pairs with those of the state s and each of its marks below the width.
fn with_pairs(p: Pairs, s: u8, marks: u16, width: u8) -> Pairs
    ensures { (whole rest : List Pair) → PairedTo whole (pairs_of s marks (below width) ++ rest) p → length whole ≤ 64 → PairedTo whole rest result }
{
    let mut next = p;
    for m in 0..width {
        if has(marks as u32, m as u32) {
            next = with_pair(next, s, m);
        }
    }
    next
}

// The pairs of all states and their marks below the width.
fn pairs_with(named: &[u16], states: u8, width: u8) -> Pairs
    ensures { (ps : List Pair) → ps ≡ pairs (λ s. has (get_or named.now s 0)) width (below states) → length ps ≤ 64 → Paired ps result }
{
    let mut next = no_pairs();
    for s in 0..states {
        let marks = marks_at(named, s as usize);
        if marks != 0 {
            next = with_pairs(next, s, marks, width);
        }
    }
    next
}

// A set of marks with one more.
fn with_mark(marks: u16, m: u8) -> u16
    ensures { (i : ℕ) → i < 16 → has result i ≡ (has marks i || eqb m i) }
{
    if m >= 16 {
        return marks;
    }
    let bit: u16 = 1 << m;
    marks | bit
}

// The marks with which transitions name each state.
fn marks_named(states: &[u8], marks: &[u8], count: u8) -> [u16; 48]
    ensures { Named states.now marks.now count result }
{
    let mut named = [0; 48];
    for t in 0..count {
        let s = byte_at(states, t as usize) as usize;
        let m = byte_at(marks, t as usize);
        if s < 48 {
            named[s] = with_mark(named[s], m);
        }
    }
    named
}

// The pairs by which transitions enter states.
pub fn enter_pairs(transitions: Transitions, states: u8, entries: u8) -> Pairs
    ensures { (c : Chart) → Columned c transitions → states ≡ length c.states → states ≤ 48 → entries ≡ c.entries → entries ≤ 16 → Paired (enter_pairs c) result }
{
    let named = marks_named(
        &transitions.destinations,
        &transitions.entries,
        transitions.count,
    );
    pairs_with(&named, states, entries)
}

// The pairs by which transitions leave states.
pub fn exit_pairs(transitions: Transitions, states: u8, exits: u8) -> Pairs
    ensures { (c : Chart) → Columned c transitions → states ≡ length c.states → states ≤ 48 → exits ≡ c.exits → exits ≤ 8 → Paired (exit_pairs c) result }
{
    let named = marks_named(&transitions.sources, &transitions.exits, transitions.count);
    pairs_with(&named, states, exits)
}

// The channel of the pair k, if those before the pairs' are so many.
pub fn channel_of(before: u8, k: u8) -> u8
    ensures { before < 128 → k < 128 → result ≡ before + k }
{
    if before >= 128 {
        return 0;
    }
    if k >= 128 {
        return 0;
    }
    before + k
}
