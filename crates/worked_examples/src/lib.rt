// Document 01's table of examples, as one statement about the definitions.

#![tactic(auto)]
