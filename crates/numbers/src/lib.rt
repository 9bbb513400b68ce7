// Signed 32-bit numbers, the relations of numbers, and values, which are such a number or none.
#![tactic(auto)]

pub mod relation;
pub mod signed;
pub mod value;
