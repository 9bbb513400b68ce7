// The edges that bear the transitions from a state.
ghost use Rattle.std.specs.Prelude.{◌≡◌, ◌≤◌, length};
ghost use Rattle.lists.specs.Lists.{concat};
ghost use Rattle.chart_records.specs.Chart.{Chart};
ghost use Rattle.chart_records.specs.Laid.{Laid};
ghost use Rattle.chart_records.specs.declared.header.Counts.{Counts};
ghost use Rattle.flattening.specs.Flatten.{child, all_places, number, bearing_all};
ghost use Rattle.flatten_places.specs.Tables.{ColumnOf};
ghost use Rattle.flatten_places.specs.Walking.{Tabulated, Spread};
ghost use Rattle.flatten_edges.specs.Adding.{Adds};
ghost use Rattle.flatten_edges.specs.Sourcing.{Sourced, Least, BearsAll};

use crate::bear::bear;
use flatten_places::transition::Transitions;
use flatten_places::walk::Tables;
use reading::field::byte_at;

// The transitions from a state, ascending.
#[derive(Clone, Copy)]
pub struct Sources {
    pub items: [u8; Transitions::COUNT],
    pub count: u8,
}

// Those of so many transitions whose source is s.
fn transitions_from(sources: &[u8; 64], count: u8, s: u8) -> Sources
    ensures { (c : Chart) → ColumnOf (λ u. u.source) c sources.now → count ≡ length c.transitions → length c.transitions ≤ 64 → Sourced c s result.items result.count }
{
    let mut items = [0; 64];
    let mut n = 0;
    if count > 64 {
        return Sources { items, count: 0 };
    }
    for t in 0..count {
        items[n as usize] = t;
        if byte_at(sources, t as usize) == s {
            n += 1;
        }
    }
    Sources { items, count: n }
}

// The lower of two numbers, if the second is not before a third.
fn lower(best: u8, from: u8, d: u8) -> u8
    ensures { (result ≤ best) × (from ≤ d → result ≤ d) × (from ≤ best → from ≤ result) }
{
    if d < from {
        return best;
    }
    best.min(d)
}

// The least place from a number on where one of these transitions departs to; 255 if there is none.
fn next_departure(departures: &[u8; 64], items: &[u8; 64], count: u8, from: u8) -> u8
    ensures { Least departures.now items.now count from result }
{
    let mut best = 255;
    for k in 0..count {
        let u = byte_at(items, k as usize);
        let d = byte_at(departures, u as usize);
        best = lower(best, from, d);
    }
    best
}

// The edges from a state, whose number is i, to the place with the number j: these transitions come from the state.
fn to_place(
    heads: &mut [u8; 13312],
    count: u16,
    t: &Tables,
    exits: &[u8; 192],
    homes: &[u8; 192],
    rest: &[u8],
    offsets: &[u32],
    items: &[u8; 64],
    size: u8,
    i: u8,
    j: u8,
    sets: &mut [u16; 1024],
    listed: &mut [usize; 2],
) -> u16
    ensures { BearsAll t.now exits.now homes.now rest.now offsets.now items.now size i j
        heads.old count heads.new result
        sets.old listed.old sets.new listed.new }
{
    let mut n = count;
    for k in 0..size {
        let u = byte_at(items, k as usize);
        if byte_at(&t.departures, u as usize) == j {
            n = bear(
                heads, n, t, exits, homes, rest, offsets, i, j, u, sets, listed,
            );
        }
    }
    n
}

// The edges from the state s, whose number is i, that bear its transitions.
pub fn from_source(
    heads: &mut [u8; 13312],
    count: u16,
    t: &Tables,
    exits: &[u8; 192],
    homes: &[u8; 192],
    rest: &[u8],
    offsets: &[u32],
    places: u8,
    i: u8,
    s: u8,
) -> u16
    ensures { (c : Chart) (counts : Counts) → Tabulated c t.now → Spread c exits.now homes.now
        → Laid rest.now counts offsets.now c → places ≡ length (all_places c) → i ≡ number c (child s)
        → Adds heads.old count heads.new result (concat (bearing_all c s) (all_places c)) }
{
    let mine = transitions_from(&t.transitions.sources, t.transitions.count, s);
    let mut n = count;
    let mut j = next_departure(&t.departures, &mine.items, mine.count, 0);
    if j >= places {
        return count;
    }
    let mut sets = [0; 1024];
    let mut listed = [255, 0]; // no exit's
    // A loop by `while`: it goes from departure to departure, and passes over the places between them.
    while j < places {
        n = to_place(
            heads,
            n,
            t,
            exits,
            homes,
            rest,
            offsets,
            &mine.items,
            mine.count,
            i,
            j,
            &mut sets,
            &mut listed,
        );
        if n > 1024 {
            return 1025;
        }
        j = next_departure(&t.departures, &mine.items, mine.count, j + 1);
    }
    n
}
