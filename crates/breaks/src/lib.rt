// Weft breaks in a window: one pass over a list of any length, which is the operation. What it has to answer, and the laws of
// windows, are in `break_windows`.
#![tactic(auto)]

mod block;
pub mod busiest;
mod order;
mod pass;
mod reached;
