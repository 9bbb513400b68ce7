// The bounds of places. Tables have a row of eight bounds for each state.
ghost use Rattle.std.specs.Prelude.{◌≡◌, ◌&&◌, eqb, true, suc, ◌<◌, length};
ghost use mathlib.Core.List.{Memᴰ};
ghost use Rattle.chart_records.specs.Chart.{Chart};
ghost use Rattle.chart_records.specs.Rules.{parents, entry_marks};
ghost use Rattle.chart_records.specs.Layout.{Stated};
ghost use Rattle.chart_tree.specs.Table.{Column, Rooted, Tabled};
ghost use Rattle.chart_tree.specs.declared.table.Tree.{Tree};
ghost use Rattle.flattening.specs.Flatten.{Place, own, carried_from, joined, pre_bounds, arrival, arrival_bounds, bounds_of, all_places};
ghost use Rattle.flatten_places.specs.Tables.{Chartered, FixedIn, Columned, kind_of, value_of, mark_of};
ghost use Rattle.flatten_tables.specs.Bounding.{RowsOf, bounds_at, above_of, Bounded};

use chart_records::header::Counts;
use chart_records::state::bounds_of;
use chart_tree::entry::entered;
use chart_tree::table::Tree;
use clocks::clock::{NO_BOUND, join, join_tables};
use flatten_places::fixed::Fixed;
use flatten_places::place::Places;
use flatten_places::transition::Transitions;
use reading::field::byte_at;

// The bounds of each state.
fn state_bounds(rest: &[u8], counts: Counts) -> [[u32; 8]; 48]
    ensures { (c : Chart) → Stated rest.now counts c → RowsOf (bounds_at c) c result }
{
    let mut table = [[NO_BOUND; 8]; 48];
    if counts.states > 48 {
        return table;
    }
    for s in 0..counts.states {
        table[s as usize] = bounds_of(rest, counts, s);
    }
    table
}

// Whether a state is its parent's sensor, by the kinds of both: basic or plain, and below a parallel one.
fn is_sensor(kind: u8, above: u8) -> bool
    ensures { result ≡ (eqb kind 0 && eqb above 2) }
{
    kind == 0 && above == 2
}

// The bounds of each state joined with those of its sensors, deepest first: from the last state up each basic or plain
// child of a parallel state adds its own to its parent's, whose number is smaller.
fn own_bounds(rest: &[u8], counts: Counts, tree: Tree, fixed: Fixed) -> [[u32; 8]; 48]
    ensures { (c : Chart) → Stated rest.now counts c → Tabled c tree → parents c ≡ true → FixedIn c fixed → RowsOf (own c) c result }
{
    let mut table = state_bounds(rest, counts);
    if tree.states > 48 {
        return table;
    }
    for s in (1..tree.states as usize).rev() {
        let p = (tree.parents[s] % 48) as usize;
        if is_sensor(fixed.kinds[s], tree.kinds[p]) {
            table[p] = join(table[s], table[p]);
        }
    }
    table
}

// What the children of p carry: its own bounds and those above it, if it is the root or a parallel state's child.
fn carried(parents: &[u8], kinds: &[u8], p: usize, mine: [u32; 8], above: [u32; 8]) -> [u32; 8]
    ensures { (c : Chart) → Rooted c parents.now → Column (λ x. x.kind) c kinds.now → p < length c.states → mine ≡ own c p → above ≡ above_of c p → result ≡ carried_from (suc p) c p }
{
    if p == 0 {
        return mine;
    }
    let q = byte_at(parents, p) as usize;
    if byte_at(kinds, q) != 2 {
        return [NO_BOUND; 8];
    }
    join(mine, above)
}

// The bounds that each state carries from above.
fn bounds_above(parents: &[u8], kinds: &[u8], rows: [[u32; 8]; 48]) -> [[u32; 8]; 48]
    ensures { (c : Chart) → Rooted c parents.now → Column (λ x. x.kind) c kinds.now → RowsOf (own c) c rows → RowsOf (above_of c) c result }
{
    let mut table = [[NO_BOUND; 8]; 48];
    for s in 1..48 {
        let p = byte_at(parents, s) as usize;
        if p < s {
            table[s] = carried(parents, kinds, p, rows[p], table[p]);
        }
    }
    table
}

// The bounds of each state, joined with those that it carries.
pub fn joined_bounds(rest: &[u8], counts: Counts, tree: Tree, fixed: Fixed) -> [[u32; 8]; 48]
    ensures { (c : Chart) → Stated rest.now counts c → Tabled c tree → parents c ≡ true → entry_marks c ≡ true → FixedIn c fixed → Bounded c tree result }
{
    let own = own_bounds(rest, counts, tree, fixed);
    let above = bounds_above(&tree.parents, &tree.kinds, own);
    join_tables(own, above)
}

// The joined bounds of a state.
fn row_at(rows: [[u32; 8]; 48], s: u8) -> [u32; 8]
    ensures { (c : Chart) (tree : Tree) → Bounded c tree rows → s < length c.states → result ≡ joined c s }
{
    let i = s as usize;
    if i >= 48 {
        return [NO_BOUND; 8];
    }
    rows[i]
}

// The joined bounds of all states that entering d by e enters.
fn pre_bounds(tree: Tree, rows: [[u32; 8]; 48], d: u8, e: u8) -> [u32; 8]
    ensures { (c : Chart) → Bounded c tree rows → result ≡ pre_bounds c (record { state = d; mark = e }) }
{
    let set = entered(tree, d, e, [false; 48]);
    let mut row = [NO_BOUND; 8];
    for k in (0..48).rev() {
        if set[k] {
            let next = join(rows[k], row);
            row = next;
        }
    }
    row
}

// The bounds of the place where a transition arrives.
fn arrival_bounds(tree: Tree, rows: [[u32; 8]; 48], transitions: Transitions, t: u8) -> [u32; 8]
    ensures { (c : Chart) → Chartered c → Bounded c tree rows → Columned c transitions → t < length c.transitions → result ≡ arrival_bounds c (arrival c t) }
{
    let i = t as usize;
    if i >= Transitions::COUNT {
        return [NO_BOUND; 8];
    }
    let d = transitions.destinations[i];
    let e = transitions.entries[i];
    if e != 255 {
        return pre_bounds(tree, rows, d, e);
    }
    row_at(rows, d)
}

// The bounds of a place, by its kind and what it stands for.
pub fn place_bounds(
    tree: Tree,
    rows: [[u32; 8]; 48],
    transitions: Transitions,
    kind: u8,
    value: u8,
    mark: u8,
) -> [u32; 8]
    ensures { (c : Chart) (p : Place) → Chartered c → Bounded c tree rows → Columned c transitions → Memᴰ p (all_places c) → kind ≡ kind_of p → value ≡ value_of p → mark ≡ mark_of p → result ≡ bounds_of c p }
{
    if kind == Places::CHILD {
        return row_at(rows, value);
    }
    if kind == Places::PRE {
        return pre_bounds(tree, rows, value, mark);
    }
    if kind == Places::POST {
        return arrival_bounds(tree, rows, transitions, value);
    }
    [NO_BOUND; 8]
}
