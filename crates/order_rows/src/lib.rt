// What sets of positions tell of the texts of a shape on one side of a fixed text. Definitions and proofs alone, no
// code.

#![tactic(auto)]
