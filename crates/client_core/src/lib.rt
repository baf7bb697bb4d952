// A client of a run: it runs its commands in order, attempt by attempt, by messages to targets.
#![tactic(auto)]

pub mod client;
mod hears;
mod quiet;
mod turns;
