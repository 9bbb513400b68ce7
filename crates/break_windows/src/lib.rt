// Windows of consecutive ticks: what the most weft breaks within one are, and the laws of it that a pass over the ticks needs,
// whether it has the list (`breaks`) or gets the ticks one by one (`tick_lines`). The code is the test of one tick; the passes
// are in crates of their own, so that an edit of a definition does not prove them again.
#![tactic(auto)]

pub mod window;
