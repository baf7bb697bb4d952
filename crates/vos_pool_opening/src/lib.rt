// A region is opened as a pool with what it keeps in memory.
#![tactic(auto)]

pub mod beginning;
mod contents;
mod counting;
mod holding;
pub mod opening;
mod refusal;
mod tidied;
