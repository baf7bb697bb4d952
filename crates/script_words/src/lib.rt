// Reads the words of a script's lines, by what is declared before them.
#![tactic(auto)]

pub mod decls;
pub mod fault;
pub mod laws;
pub mod tables;
pub mod values;
pub mod words;
