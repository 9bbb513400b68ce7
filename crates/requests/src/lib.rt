// Requests in their binary form: checks, flattening, calls of the machines, runs of both, weft breaks.
#![tactic(auto)]

pub mod request;
