// The rows of a report: their words, and what they tell.
#![tactic(auto)]

pub mod answers;
pub mod fault;
pub mod names;
mod outcomes;
pub mod rows;
pub mod words;
