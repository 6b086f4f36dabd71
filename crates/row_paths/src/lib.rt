// No code: what rows of positions tell of two shapes that are read together.

#![tactic(auto)]
