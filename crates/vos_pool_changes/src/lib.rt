// The changes of an open pool that own it while they run.
#![tactic(auto)]

pub mod discard;
mod known;
pub mod prepare;
pub mod prune;
pub mod settle;
mod taking;
