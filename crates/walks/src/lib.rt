// The rests of a shape by position, and which pairs of rests two texts can share: definitions and proofs alone, no
// code.

#![tactic(auto)]
