// A list of events, and whether it is a run.
#![tactic(auto)]

pub mod clients;
pub mod events;
pub mod follow;
pub mod laws;
pub mod letters;
