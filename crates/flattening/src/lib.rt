// Flattening as the paper fixes it: definitions and their laws alone, no function.
#![tactic(auto)]
