// The members of an attempt, by its writes.
#![tactic(auto)]

pub mod below;
pub mod members;
