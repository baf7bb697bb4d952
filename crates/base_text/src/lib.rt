// The lines, the words and the numbers of a text.
#![tactic(auto)]

pub mod number;
pub mod parts;
pub mod rows;
