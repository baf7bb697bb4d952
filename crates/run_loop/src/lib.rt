// The order of turns: rounds, or actors and messages that are drawn; targets may stop in them and open again.
#![tactic(auto)]

pub mod below;
pub mod order;
