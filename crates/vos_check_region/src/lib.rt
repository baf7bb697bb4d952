// The check of a region before its log is undone: whether it is blank, and whether its log is well formed.
#![tactic(auto)]

pub mod blank;
pub mod laws;
pub mod log;
mod magic;
mod ranges;
mod reads;
