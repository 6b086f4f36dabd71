// No code: what is said of plain numbers, lists and answers, whatever they stand for.

#![tactic(auto)]
