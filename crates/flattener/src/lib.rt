// The flattener: the network's file. The operation is in `operation`.
#![tactic(auto)]

mod body;
mod location;
pub mod operation;
mod output;
mod record;
mod write;
