// How the program ends: its statuses, their numbers and their texts.
#![tactic(auto)]

pub mod part;
pub mod status;
