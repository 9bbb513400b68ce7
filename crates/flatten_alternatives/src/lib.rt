// The alternatives of a transition with an exit: the sets of automata whose flags say that its source can be left. `ascending`
// is public since a move's transitions are put in order by it too.
#![tactic(auto)]

pub mod alternative;
pub mod ascending;
