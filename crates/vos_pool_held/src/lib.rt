// A pool that is open, with what it keeps in memory.
#![tactic(auto)]

pub mod held;
pub mod looking;
pub mod resting;
