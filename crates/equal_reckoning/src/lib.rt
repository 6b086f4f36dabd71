// Narrowing under equality as a function of two shapes that computes, for worked examples: definitions and proofs
// alone, no code.

#![tactic(auto)]
