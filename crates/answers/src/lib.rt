// Answers to requests, on an output.
#![tactic(auto)]

mod checksum;
pub mod output;
