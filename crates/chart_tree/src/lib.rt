// The states of a chart as tables, and what entering a state enters.
#![tactic(auto)]

pub mod entry;
pub mod table;
