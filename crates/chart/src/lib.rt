// The check of a chart file, which is an operation: `check` reads the records and tries the rules. The records, the tables
// of states and the rules are those of chart_records, chart_tree and chart_rules; by the first two the machine and the
// flattener read a checked file, from what `checked` hands over of it.
#![tactic(auto)]

pub mod check;
mod transition_list;
