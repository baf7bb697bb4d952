// What reads are answered by objects on trees.
#![tactic(auto)]

pub mod extent;
pub mod punch;
pub mod single;
pub mod way;
