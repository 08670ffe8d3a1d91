// Vectors only: see proofs/.
#![tactic(auto)]
