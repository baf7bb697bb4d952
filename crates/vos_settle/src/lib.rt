// What becomes of one write on the way from a tree of objects down to its version.
#![tactic(auto)]

pub mod akeys;
pub mod dkeys;
pub mod log;
pub mod name;
pub mod objects;
pub mod put;
pub mod task;
pub mod values;
pub mod write;
