// The punches of a store by where and when they were made, kept in memory.
#![tactic(auto)]

pub mod below;
mod bucket;
mod cut;
pub mod laws;
pub mod moments;
pub mod punches;
