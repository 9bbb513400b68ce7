// Updates, which are assignments and advances.
#![tactic(auto)]

pub mod update;
