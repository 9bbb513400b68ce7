// The chart machine: the operations are in `operation`. The configuration that they move on is that of chart_moves.
#![tactic(auto)]

pub mod operation;
mod ticks;
