// A chart and its flattened network, run side by side: `run` has both machines at one moment and what follows a call of
// the network. What a move carries is in `carry`, what it owes in `owe`.
#![tactic(auto)]

pub mod carry;
mod owe;
pub mod run;
