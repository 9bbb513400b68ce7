// Configurations of a network: which edges are active, which sets are allowed, and what becomes of a configuration.
#![tactic(auto)]

pub mod active;
pub mod after;
pub mod choice;
pub mod configuration;
