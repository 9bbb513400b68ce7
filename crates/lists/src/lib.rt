// Lists, bits of numbers and sets of marks: definitions and laws that every crate uses, tests of marks.
#![tactic(auto)]

pub mod mark;
