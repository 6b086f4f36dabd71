// The run of rules in their order, round after round, each on the shapes so far: definitions and laws alone, no code.

#![tactic(auto)]
