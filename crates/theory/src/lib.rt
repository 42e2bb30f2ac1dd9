// Theorems on frames: see proofs/.
#![tactic(auto)]
