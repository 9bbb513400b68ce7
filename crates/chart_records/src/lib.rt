// The records of a chart file: header, states, transitions.
#![tactic(auto)]

pub mod header;
pub mod state;
pub mod transition;
