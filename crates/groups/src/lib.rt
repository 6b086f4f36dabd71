// Groups of the texts that rules link: definitions and laws alone, no code.

#![tactic(auto)]
