// The records of a network file: header, locations, edges.
#![tactic(auto)]

pub mod edge;
pub mod header;
pub mod location;
