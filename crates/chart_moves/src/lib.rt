// Configurations of a chart: the active states, which of them are complete, and what the moves of a step make of them.
#![tactic(auto)]

pub mod activity;
pub mod completion;
pub mod configuration;
pub mod moves;
