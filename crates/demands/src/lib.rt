// No code: the user's three demands, stated over the promises of `dashed`.

#![tactic(auto)]
