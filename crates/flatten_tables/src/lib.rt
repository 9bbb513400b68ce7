// The tables of a chart from which its network is made, all together in `tabulate`: the numbers of its places and their bounds;
// `summary` is what is known of the chart when the network is written.
#![tactic(auto)]

pub mod bound;
mod number;
pub mod summary;
pub mod tabulate;
