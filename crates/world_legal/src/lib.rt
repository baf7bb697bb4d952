// What tells that targets are down, what leaders no longer know after a stop, and what is over where a run has ended.
#![tactic(auto)]

pub mod doubts;
pub mod reasons;
