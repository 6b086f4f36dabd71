// Texts, fillings and hulls without regard to case: proofs alone, no code.

#![tactic(auto)]
