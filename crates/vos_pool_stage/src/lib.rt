// Changes of trees that are staged on the blocks of an open pool, and the commit that makes them.
#![tactic(auto)]

pub mod below;
pub mod committing;
pub mod laws;
