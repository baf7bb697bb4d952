// Versions in a tree, each with its bytes.
#![tactic(auto)]

pub mod below;
pub mod versions;
