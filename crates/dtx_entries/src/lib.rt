// Entries in the order of attempts, found by halves, and those of them that others may have to be told of.
#![tactic(auto)]

mod halves;
pub mod loops;
mod owing;
pub mod table;
