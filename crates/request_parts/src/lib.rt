// The parts of requests in their binary form: numbers at places, files, calls and ticks. What a request asks is read in
// `requests`; it is a crate of its own, so that an edit of either does not prove the other again.
#![tactic(auto)]

pub mod calls;
pub mod input;
pub mod ticks;
