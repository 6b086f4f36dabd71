// One side of an order: which texts of a shape keep to the right side of a fixed text. Definitions and proofs alone, no
// code.

#![tactic(auto)]
