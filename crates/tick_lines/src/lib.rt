// Ticks of weft breaks that come as lines of an input, of any length and read once: a line byte by byte, the last ticks in a
// ring, and what the pass has found with them. The program `weft_breaks` reads and prints; all that it says is decided here, in
// a crate of its own, so that an edit does not prove the program again.
#![tactic(auto)]

pub mod input;
pub mod line;
pub mod recent;
