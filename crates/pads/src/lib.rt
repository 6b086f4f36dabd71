// Two shapes read together where padding at the ends does not count. Definitions and laws alone.

#![tactic(auto)]
