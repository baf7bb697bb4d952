// Pieces of an array.
#![tactic(auto)]

pub mod pieces;
