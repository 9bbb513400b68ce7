// What is marked below states. One pass, `gathered`, serves all tables of bits: the exits marked below a state, the kinds below it
// and the exits barred there (fixed.rt). `own_bounds` of flatten_tables goes over the states in the same order, but joins rows of
// bounds, and those only of some states with those of some parents: one function for both would take what each adds as a closure,
// with a contract longer than the loop.
ghost use Rattle.std.specs.Prelude.{◌≡◌, length};
ghost use Rattle.chart_records.specs.Chart.{Chart};
ghost use Rattle.chart_tree.specs.Table.{Rooted, Tabled};
ghost use Rattle.flatten_places.specs.Tables.{Chartered};
ghost use Rattle.flatten_places.specs.Walking.{Gathered, MarkedBelow};

use chart_tree::table::Tree;

// Of each state the bits that states at or below it have in a table: from the last state up each adds its own to its
// parent's, whose number is smaller.
pub fn gathered(parents: [u8; 48], states: u8, marks: [u8; 48]) -> [u8; 48]
    ensures { (c : Chart) → Rooted c parents → states ≡ length c.states → Gathered c marks result }
{
    let mut below = marks;
    if states > 48 {
        return below;
    }
    for s in (1..states as usize).rev() {
        let above = (parents[s] % 48) as usize;
        below[above] |= below[s];
    }
    below
}

// Of each state the exits that basic states at or below it are marked with.
pub fn marked_below(tree: Tree) -> [u8; 48]
    ensures { (c : Chart) → Chartered c → Tabled c tree → MarkedBelow c result }
{
    gathered(tree.parents, tree.states, tree.exits)
}
