// The messages between clients and targets, and the actors that send them.
#![tactic(auto)]

pub mod actor;
pub mod boxed;
pub mod message;
