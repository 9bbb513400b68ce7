// The edges of a network, gathered from the tables of its chart. All of them are in `edge`, what is kept of each in `head`.
#![tactic(auto)]

mod bear;
pub mod edge;
mod flag;
pub mod head;
mod hear;
mod source;
