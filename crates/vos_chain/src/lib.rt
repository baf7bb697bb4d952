// Bytes in chains of blocks: written, read, and given back.
#![tactic(auto)]

pub mod below;
pub mod chain;
pub mod refusal;
