// Attempts on an open pool are settled, and versions that are done removed.
#![tactic(auto)]

pub mod abort;
pub mod below;
pub mod remove;
pub mod settle;
pub mod steps;
