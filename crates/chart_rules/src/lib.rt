// The rules of a chart, 5 to 14.
#![tactic(auto)]

pub mod rule;
pub mod transition_rule;
