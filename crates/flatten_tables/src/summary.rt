// What is known of a chart when its network is written.
use chart_records::header::Counts;
use chart_tree::table::Tree;
use flatten_places::fixed::Fixed;
use flatten_places::place::Places;
use flatten_places::transition::Transitions;

// The counts and states of the chart, which of these are fixed, its transitions and places, the number of each automaton's
// initial place, and how many automata and broadcast channels the network has.
#[derive(Clone, Copy)]
pub struct Summary {
    pub counts: Counts,
    pub tree: Tree,
    pub fixed: Fixed,
    pub transitions: Transitions,
    pub places: Places,
    pub initials: [u8; 16],
    pub automata: u8,
    pub broadcasts: u8,
}
