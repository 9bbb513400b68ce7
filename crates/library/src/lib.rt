// The operations as C functions, for programs in other languages. A slice is a pointer and a number of elements, an
// array that is lent a pointer to its first element. Each answers 0, or the number of the refusal, and then changes
// nothing that was lent.
#![tactic(auto)]

pub mod charts;
mod flags;
pub mod flatten;
pub mod networks;
pub mod weft_breaks;
