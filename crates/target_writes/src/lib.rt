// A target hears a Commit or a Prepare: it checks writes, and stores them.
#![tactic(auto)]

pub mod below;
pub mod checks;
pub mod commits;
pub mod downs;
pub mod prepares;
