// Expressions: read as a file is checked, and evaluated on variables.
#![tactic(auto)]

pub mod expression;
