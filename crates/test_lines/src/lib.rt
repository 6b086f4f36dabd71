// What the test programs share: the lines of the input, the fields of a line, the pieces of the line that answers it.

#![tactic(auto)]

pub mod fields;
pub mod lines;
pub mod show;
