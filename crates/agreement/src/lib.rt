// Demand 3 and the take-up over runs, and what their proofs need: theory alone, no function. Both are about the definitions of
// flattening and of the machines, to which the code is proved equal.
#![tactic(auto)]
