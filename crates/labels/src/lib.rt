// Guards, and the labels of transitions and edges that hold them.
#![tactic(auto)]

pub mod guard;
pub mod label;
