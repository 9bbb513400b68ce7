// What the steps of charts and networks share.
#![tactic(auto)]

pub mod step;
