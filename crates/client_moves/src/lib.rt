// The moves of a client: what it asks next, what it answers itself, and how an attempt begins and ends.
#![tactic(auto)]

pub mod asks;
pub mod copies;
pub mod ends;
pub mod joins;
pub mod moves;
pub mod step;
