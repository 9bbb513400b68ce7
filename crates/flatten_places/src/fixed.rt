// States with no sequential state at or below them, which are the basic and the plain ones.
ghost use Rattle.std.specs.Prelude.{ℕ, ◌<◌, ◌≡◌, cond, get_or};
ghost use Rattle.lists.specs.Lists.{has};
ghost use Rattle.chart_records.specs.Chart.{Chart};
ghost use Rattle.chart_tree.specs.Table.{Tabled};
ghost use Rattle.flatten_places.specs.Tables.{Chartered, FixedIn};
ghost use Rattle.flatten_places.specs.Filling.{bars_by};

use crate::below::gathered;
use chart_tree::table::Tree;

// Of each state its kind, where that of a plain state is that of a basic one, and the exits that it is at, as bits: for
// a basic or plain state those that all basic states at or below it are marked with, for any other none.
#[derive(Clone, Copy)]
pub struct Fixed {
    pub kinds: [u8; 48],
    pub exits: [u8; 48],
}

// The exits that a state bars: a basic one those that it is not marked with, a sequential one all.
fn barred_by(kind: u8, exits: u8) -> u8
    ensures { (e : ℕ) → e < 8 → has result e ≡ bars_by kind exits e }
{
    if kind == 0 {
        return exits ^ 255;
    }
    if kind == 1 { 255 } else { 0 }
}

// The exits that each state bars.
fn bars_of(kinds: [u8; 48], exits: [u8; 48]) -> [u8; 48]
    ensures { (s e : ℕ) → s < 48 → e < 8 → has (get_or result s 0) e ≡ bars_by (get_or kinds s 0) (get_or exits s 0) e }
{
    let mut bars = [0; 48];
    for s in 0..48 {
        bars[s] = barred_by(kinds[s], exits[s]);
    }
    bars
}

// A state's kind, or that of a basic state if none of the kinds at or below it, as bits, is sequential.
fn fixed_kind(kind: u8, inner: u8) -> u8
    ensures { result ≡ cond (has inner 0) kind 0 }
{
    if inner % 2 == 1 { kind } else { 0 }
}

// The kinds and exits of the states of a chart with these tables.
pub fn fixed_of(tree: Tree) -> Fixed
    ensures { (c : Chart) → Chartered c → Tabled c tree → FixedIn c result }
{
    let inner = gathered(tree.parents, tree.states, tree.kinds);
    let bars = bars_of(tree.kinds, tree.exits);
    let barred = gathered(tree.parents, tree.states, bars);
    let mut kinds = [0; 48];
    let mut exits = [0; 48];
    for s in 0..48 {
        kinds[s] = fixed_kind(tree.kinds[s], inner[s]);
        exits[s] = barred[s] ^ 255;
    }
    Fixed { kinds, exits }
}
