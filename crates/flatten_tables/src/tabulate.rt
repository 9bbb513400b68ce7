// The tables of a chart from which its network is made.
ghost use Rattle.std.specs.Prelude.{◌≡◌, List, ℕ};
ghost use Rattle.chart_records.specs.Chart.{Chart};
ghost use Rattle.chart_records.specs.Layout.{Stated};
ghost use Rattle.chart_tree.specs.Table.{Tabled};
ghost use Rattle.flattening.specs.Flatten.{enter_pairs, all_places};
ghost use Rattle.flatten_places.specs.Tables.{Chartered, FixedIn, Columned, Automated, Paired, Listed};
ghost use Rattle.flatten_places.specs.Walking.{ChildNumbers, Tabulated};
ghost use Rattle.flatten_tables.specs.Numbering.{Numbered};
ghost use Rattle.flatten_tables.specs.Summing.{Summed};

use crate::number::{arrivals, departures, firsts, initials, numbers_of};
use crate::summary::Summary;
use chart_records::header::Counts;
use chart_tree::table::Tree;
use flatten_places::automaton::Automata;
use flatten_places::below::marked_below;
use flatten_places::fixed::Fixed;
use flatten_places::pair::{Pairs, channel_of, exit_pairs};
use flatten_places::place::Places;
use flatten_places::transition::Transitions;
use flatten_places::walk::Tables;
use reading::field::byte_at;

// The numbers of the places of children.
fn child_numbers(numbers: &[u8]) -> [u8; 48]
    ensures { (c : Chart) → Chartered c → Numbered c numbers.now → ChildNumbers c result }
{
    let mut children = [0; 48];
    for s in 0..48 {
        children[s] = byte_at(numbers, 64 + s);
    }
    children
}

// The tables that the walk over the places looks up.
pub fn tables_of(
    counts: Counts,
    tree: Tree,
    fixed: Fixed,
    transitions: Transitions,
    automata: Automata,
    enters: Pairs,
    places: Places,
) -> Tables
    ensures { (c : Chart) (file : List ℕ) → Chartered c → Stated file counts c → Tabled c tree → FixedIn c fixed → Columned c transitions → Automated c automata → Paired (enter_pairs c) enters → Listed c (all_places c) places → Tabulated c result }
{
    let leaves = exit_pairs(transitions, counts.states, counts.exits);
    let below = marked_below(tree);
    let table = numbers_of(places);
    let numbers = child_numbers(&table);
    let departures = departures(transitions, &table);
    let arrivals = arrivals(transitions, &table);
    let firsts = firsts(automata, &table);
    let initials = initials(tree, automata, &table);
    let channels = channel_of(counts.rendezvous, counts.broadcasts);
    Tables {
        tree,
        fixed,
        transitions,
        automata,
        enters,
        leaves,
        numbers,
        below,
        departures,
        arrivals,
        firsts,
        initials,
        channels,
    }
}

// What is known of the chart when the network is written.
pub fn summary_of(counts: Counts, t: Tables, places: Places) -> Summary
    ensures summed { (c : Chart) (file : List ℕ) → Stated file counts c → Tabulated c t → Listed c (all_places c) places → Summed c result }
    ensures counts { result.counts ≡ counts }
    ensures tree { result.tree ≡ t.tree }
{
    let tree = t.tree;
    let fixed = t.fixed;
    let transitions = t.transitions;
    let initials = t.initials;
    let automata = t.automata;
    let enters = t.enters;
    let leaves = t.leaves;
    let entering = channel_of(counts.broadcasts, enters.count);
    let broadcasts = channel_of(entering, leaves.count);
    Summary {
        counts,
        tree,
        fixed,
        transitions,
        places,
        initials,
        automata: automata.count,
        broadcasts,
    }
}
