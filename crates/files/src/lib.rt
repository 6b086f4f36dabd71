// What a file in a grammar is, and at which line another departs: definitions and proofs alone, no code.

#![tactic(auto)]
