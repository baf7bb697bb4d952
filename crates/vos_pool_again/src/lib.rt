// A closed pool is opened again.
#![tactic(auto)]

pub mod again;
