// The summary of a load: how many attempts its report tells, and how they ended.
#![tactic(auto)]

mod counts;
mod rows;
pub mod summary;
