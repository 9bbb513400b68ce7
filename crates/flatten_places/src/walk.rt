// What the walk over a chart's places looks up.
use crate::automaton::Automata;
use crate::fixed::Fixed;
use crate::pair::Pairs;
use crate::transition::Transitions;
use chart_tree::table::Tree;

// The chart's states, which of them are fixed, its transitions, the automata and the pairs; of each state its number as
// a child's place, and the exits that basic states at or below it are marked with; of each transition the numbers of the
// places where it departs to and arrives; of each automaton the numbers of its idle and its initial place; how many
// channels the chart has.
#[derive(Clone, Copy)]
pub struct Tables {
    pub tree: Tree,
    pub fixed: Fixed,
    pub transitions: Transitions,
    pub automata: Automata,
    pub enters: Pairs,
    pub leaves: Pairs,
    pub numbers: [u8; 48],
    pub below: [u8; 48],
    pub departures: [u8; 64],
    pub arrivals: [u8; 64],
    pub firsts: [u8; 16],
    pub initials: [u8; 16],
    pub channels: u8,
}
