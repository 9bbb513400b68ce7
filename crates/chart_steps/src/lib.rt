// Steps of a chart: which transitions are active, which sets of them are allowed, and the configuration after a step.
#![tactic(auto)]

pub mod allowed;
pub mod taken;
