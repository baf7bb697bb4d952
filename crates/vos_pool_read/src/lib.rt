// What an open pool remembers is read of it, and what of it is known at rest.
#![tactic(auto)]

pub mod reading;
pub mod resting;
mod sound;
