// Blocks of a region that are read, staged, taken and given back, what stands in them, and the nodes of
// trees.
#![tactic(auto)]

pub mod codec;
pub mod laws;
pub mod node;
pub mod pages;
pub mod refusal;
pub mod steps;

/// How many bytes a block has.
pub const BLOCK: usize = 256;
