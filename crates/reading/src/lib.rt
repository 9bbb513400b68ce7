// Fields of records: each reader answers a value and the next place, or a fault. The versions of a file. What a call is refused for.
#![tactic(auto)]

pub mod field;
pub mod refusal;
pub mod version;
