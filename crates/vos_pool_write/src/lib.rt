// Entries and their writes that are prepared in an open pool.
#![tactic(auto)]

pub mod adding;
pub mod laws;
pub mod preparing;
pub mod several;
pub mod staging;
