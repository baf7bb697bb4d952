// What lies between actors: messages in flight, issued epochs and lines; and which actor has the next turn.
#![tactic(auto)]

pub mod asked;
pub mod between;
mod changing;
mod cutting;
pub mod lines;
mod losing;
mod numbers;
pub mod schedule;
mod sending;
pub mod sweeping;
