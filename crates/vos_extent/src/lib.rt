// Extents of an array of records.
#![tactic(auto)]

mod cells;
pub mod extent;
pub mod laws;
pub mod pieces;
pub mod settle;
