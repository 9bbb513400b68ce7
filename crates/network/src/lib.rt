// The check of a network file, in `check`, and how a checked file is read beyond its single records, which network_records
// has: `laid` gives its edges, `initial` where its automata start, `bearing` which transitions of a chart the edges of a step
// bear.
#![tactic(auto)]

pub mod bearing;
pub mod check;
mod edge_list;
pub mod initial;
pub mod laid;
