// A target of a run, over any store and any clock: it hears messages, does idle work, and opens again after a stop.
#![tactic(auto)]

mod after_stops;
mod commits;
mod hearing;
mod making;
pub mod target;
