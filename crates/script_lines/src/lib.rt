// Reads what the lines of a script say, by what is declared before them.
#![tactic(auto)]

pub mod line;
pub mod lines;
mod ops;
mod verbs;
