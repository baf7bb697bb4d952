// The names of writes that stand in trees of objects, and the punches among them.
#![tactic(auto)]

mod akeys;
pub mod below;
mod dkeys;
mod log;
pub mod objects;
pub mod punches;
mod values;
pub mod wanted;
