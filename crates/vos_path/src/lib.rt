// The way from a tree of objects down to versions, and what a write makes on it.
#![tactic(auto)]

pub mod akeys;
pub mod below;
pub mod dkeys;
pub mod find;
pub mod laws;
pub mod log;
pub mod name;
pub mod objects;
pub mod stamp;
pub mod values;
