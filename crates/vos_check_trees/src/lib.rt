// The check of trees of any kind, node by node.
#![tactic(auto)]

pub mod fields;
pub mod heights;
pub mod level;
pub mod tree;
