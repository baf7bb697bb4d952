// Versions of a single value.
#![tactic(auto)]

pub mod laws;
pub mod settle;
pub mod single;
