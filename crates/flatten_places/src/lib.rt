// The places of a chart to be flattened: its fixed states, automata, pairs and transitions, as tables.
#![tactic(auto)]

pub mod automaton;
pub mod below;
pub mod fixed;
pub mod pair;
pub mod place;
pub mod transition;
pub mod walk;
