// The network machine, by value. The operations are in `operation`; the configuration that they move on is that of network_moves,
// and the functions that move it on in place are the crate network_in_place.
#![tactic(auto)]

mod longest;
pub mod operation;
mod step;
mod wait;
