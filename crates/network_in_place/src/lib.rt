// The network machine on a configuration that a board keeps, as C functions. It is an archive of its own, so that a board that
// only runs networks links nothing else.
#![tactic(auto)]

pub mod in_place;
