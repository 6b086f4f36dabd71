// What more rules and less room can do to the run of a book: definitions and laws alone, no code.

#![tactic(auto)]
