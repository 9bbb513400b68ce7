// Clocks and rows of bounds, in `clock`; the test of a bound, and the ticks left under bounds, in `left`.
#![tactic(auto)]

pub mod clock;
pub mod left;
