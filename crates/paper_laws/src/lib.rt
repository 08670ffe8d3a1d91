// Theorems only: see proofs/.
#![tactic(auto)]
