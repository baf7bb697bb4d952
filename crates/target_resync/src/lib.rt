// What a target does after a stop: it opens again, and hears what is asked, answered and told of stops.
#![tactic(auto)]

pub mod asks;
pub mod below;
pub mod opening;
pub mod resets;
pub mod restarts;
pub mod statuses;
