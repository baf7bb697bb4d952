// All versions of objects on trees, read into memory.
#![tactic(auto)]

mod akeys;
mod dkeys;
mod log;
pub mod objects;
mod rows;
mod values;
