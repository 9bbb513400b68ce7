// What the programs share: printing, the lines of refusals, scripts of calls and the machines that they run, files.
#![tactic(auto)]

pub mod file;
pub mod machine;
pub mod print;
pub mod script;
pub mod sentence;
