// What narrowing means for every relation, and that all ways of running a book of rules agree: definitions and proofs
// alone, no code.

#![tactic(auto)]
