// No code: what a base is, a set of characters, and its laws. As a value it is a set of `sets`.

#![tactic(auto)]
