// The edges of the network, place by place.
ghost use Rattle.std.specs.Prelude.{◌≡◌, ◌&&◌, eqb, length};
ghost use mathlib.Core.List.{List, Memᴰ as Mem};
ghost use Rattle.lists.specs.Lists.{position};
ghost use Rattle.chart_records.specs.Chart.{Chart, parent_of};
ghost use Rattle.chart_records.specs.Laid.{Laid};
ghost use Rattle.chart_records.specs.declared.header.Counts.{Counts};
ghost use Rattle.flattening.specs.Flatten.{Pair, Place, idle, child, pre, post, same_pair, all_places, number, from_place, flatten};
ghost use Rattle.flatten_places.specs.Tables.{kind_of, value_of, mark_of, Listed};
ghost use Rattle.flatten_places.specs.Walking.{Tabulated, Spread};
ghost use Rattle.flatten_edges.specs.Gathering.{Gathered};
ghost use Rattle.flatten_edges.specs.Adding.{Adds};
ghost use Rattle.flatten_edges.specs.Hearing.{PairColumns, entry_edges, exit_edges};

use crate::flag::{joining, own_head};
use crate::head::push;
use crate::hear::{hear_entries, hear_exits};
use crate::source::from_source;
use flatten_places::pair::channel_of;
use flatten_places::place::Places;
use flatten_places::walk::Tables;
use reading::field::byte_at;

// Whether two pairs, each a state and a mark, are the same.
fn is_same(state: u8, mark: u8, s: u8, m: u8) -> bool
    ensures { result ≡ (eqb state s && eqb mark m) }
{
    state == s && mark == m
}

// Where a pair stands in the columns of pairs, of which there are so many.
fn pair_position(states: &[u8; 64], marks: &[u8; 64], pairs: u8, state: u8, mark: u8) -> u8
    ensures { (ps : List Pair) (p : Pair) → PairColumns ps states.now marks.now pairs → state ≡ p.state → mark ≡ p.mark → result ≡ position (same_pair p) ps }
{
    for k in 0..pairs {
        let s = byte_at(states, k as usize);
        let m = byte_at(marks, k as usize);
        if is_same(state, mark, s, m) {
            return k;
        }
    }
    pairs
}

// The edges from the idle parent q of s, whose number is i, to s.
fn to_child(
    heads: &mut [u8; 13312],
    count: u16,
    t: &Tables,
    exits: &[u8; 192],
    homes: &[u8; 192],
    i: u8,
    q: u8,
    s: u8,
) -> u16
    ensures { (c : Chart) → Tabulated c t.now → Spread c exits.now homes.now
        → Mem (idle q) (all_places c) → i ≡ number c (idle q) → Mem (child s) (all_places c) → parent_of c s ≡ q
        → Adds heads.old count heads.new result (entry_edges c q s) }
{
    let e = joining(
        exits,
        homes,
        &t.initials,
        i,
        byte_at(&t.numbers, s as usize),
    );
    hear_entries(
        heads,
        count,
        e,
        &t.tree.parents,
        &t.tree.entries,
        q,
        s,
        &t.enters.states,
        &t.enters.marks,
        t.enters.count,
        t.channels,
    )
}

// The edges from an idle state: i is its number.
fn from_idle(
    heads: &mut [u8; 13312],
    count: u16,
    t: &Tables,
    exits: &[u8; 192],
    homes: &[u8; 192],
    i: u8,
    q: u8,
) -> u16
    ensures { (c : Chart) → Tabulated c t.now → Spread c exits.now homes.now → Mem (idle q) (all_places c) → i ≡ number c (idle q) → Adds heads.old count heads.new result (from_place c (idle q)) }
{
    let mut n = count;
    for s in 0..t.tree.states {
        if byte_at(&t.tree.parents, s as usize) == q {
            n = to_child(heads, n, t, exits, homes, i, q, s);
        }
    }
    n
}

// The edge from before an entry: i is the number of the place.
fn from_pre(
    heads: &mut [u8; 13312],
    count: u16,
    t: &Tables,
    exits: &[u8; 192],
    homes: &[u8; 192],
    i: u8,
    state: u8,
    mark: u8,
) -> u16
    ensures { (c : Chart) (p : Pair) → Tabulated c t.now → Spread c exits.now homes.now
        → Mem (pre p) (all_places c) → i ≡ number c (pre p) → state ≡ p.state → mark ≡ p.mark
        → Adds heads.old count heads.new result (from_place c (pre p)) }
{
    let e = joining(
        exits,
        homes,
        &t.initials,
        i,
        byte_at(&t.numbers, state as usize),
    );
    let k = pair_position(
        &t.enters.states,
        &t.enters.marks,
        t.enters.count,
        state,
        mark,
    );
    push(heads, count, own_head(e, 1, channel_of(t.channels, k)))
}

// The edge from after the exit of the transition u: i is the number of the place.
fn from_post(
    heads: &mut [u8; 13312],
    count: u16,
    t: &Tables,
    exits: &[u8; 192],
    homes: &[u8; 192],
    i: u8,
    u: u8,
) -> u16
    ensures { (c : Chart) → Tabulated c t.now → Spread c exits.now homes.now → Mem (post u) (all_places c) → i ≡ number c (post u) → Adds heads.old count heads.new result (from_place c (post u)) }
{
    let e = joining(
        exits,
        homes,
        &t.initials,
        i,
        byte_at(&t.arrivals, u as usize),
    );
    let source = byte_at(&t.transitions.sources, u as usize);
    let exit = byte_at(&t.transitions.exits, u as usize);
    let k = pair_position(
        &t.leaves.states,
        &t.leaves.marks,
        t.leaves.count,
        source,
        exit,
    );
    let before = channel_of(t.channels, t.enters.count);
    push(heads, count, own_head(e, 1, channel_of(before, k)))
}

// The edges from the child s, whose number is i, to its idle parent.
fn to_idle(
    heads: &mut [u8; 13312],
    count: u16,
    t: &Tables,
    exits: &[u8; 192],
    homes: &[u8; 192],
    i: u8,
    s: u8,
) -> u16
    ensures { (c : Chart) → Tabulated c t.now → Spread c exits.now homes.now
        → Mem (child s) (all_places c) → i ≡ number c (child s)
        → Adds heads.old count heads.new result (exit_edges c s (parent_of c s)) }
{
    let q = byte_at(&t.tree.parents, s as usize);
    let low = byte_at(&t.below, s as usize);
    let first = byte_at(&t.firsts, byte_at(homes, i as usize) as usize);
    let e = joining(exits, homes, &t.initials, i, first);
    let before = channel_of(t.channels, t.enters.count);
    hear_exits(
        heads,
        count,
        e,
        &t.tree.parents,
        low,
        q,
        &t.leaves.states,
        &t.leaves.marks,
        t.leaves.count,
        before,
    )
}

// The edges from the child s, whose number is i, of so many places.
fn from_child(
    heads: &mut [u8; 13312],
    count: u16,
    t: &Tables,
    exits: &[u8; 192],
    homes: &[u8; 192],
    rest: &[u8],
    offsets: &[u32],
    places: u8,
    i: u8,
    s: u8,
) -> u16
    ensures { (c : Chart) (n : Counts) → Tabulated c t.now → Spread c exits.now homes.now
        → Laid rest.now n offsets.now c → places ≡ length (all_places c)
        → Mem (child s) (all_places c) → i ≡ number c (child s)
        → Adds heads.old count heads.new result (from_place c (child s)) }
{
    let n = to_idle(heads, count, t, exits, homes, i, s);
    from_source(heads, n, t, exits, homes, rest, offsets, places, i, s)
}

// The edges from a place, whose number is i, by its kind.
fn from_place(
    heads: &mut [u8; 13312],
    count: u16,
    t: &Tables,
    exits: &[u8; 192],
    homes: &[u8; 192],
    rest: &[u8],
    offsets: &[u32],
    places: u8,
    i: u8,
    kind: u8,
    value: u8,
    mark: u8,
) -> u16
    ensures { (c : Chart) (n : Counts) (p : Place) → Tabulated c t.now → Spread c exits.now homes.now
        → Laid rest.now n offsets.now c → places ≡ length (all_places c)
        → Mem p (all_places c) → i ≡ number c p → kind ≡ kind_of p → value ≡ value_of p → mark ≡ mark_of p
        → Adds heads.old count heads.new result (from_place c p) }
{
    match kind {
        0 => from_idle(heads, count, t, exits, homes, i, value),
        1 => from_child(
            heads, count, t, exits, homes, rest, offsets, places, i, value,
        ),
        2 => from_pre(heads, count, t, exits, homes, i, value, mark),
        _ => from_post(heads, count, t, exits, homes, i, value),
    }
}

// The edges of the network, one after the other: how many, or 1025 if they are too many.
pub fn all_edges(
    heads: &mut [u8; 13312],
    t: &Tables,
    places: Places,
    rest: &[u8],
    offsets: &[u32],
) -> u16
    ensures { (c : Chart) (n : Counts) → Tabulated c t.now → Listed c (all_places c) places → Laid rest.now n offsets.now c → length heads.old ≡ 13312 → Gathered heads.new result (flatten c).edges }
{
    let mut n = 0;
    for i in 0..places.count {
        let kind = byte_at(&places.kinds, i as usize);
        let value = byte_at(&places.values, i as usize);
        let mark = byte_at(&places.marks, i as usize);
        n = from_place(
            heads,
            n,
            t,
            &places.exits,
            &places.automata,
            rest,
            offsets,
            places.count,
            i,
            kind,
            value,
            mark,
        );
        if n > 1024 {
            return 1025;
        }
    }
    n
}
