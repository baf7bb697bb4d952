// What the check of the blocks of an image stands on: bytes that are read, blocks that no field led to yet,
// and what a check answers for a step of the reading.
#![tactic(auto)]

mod bits;
pub mod fresh;
pub mod ground;
pub mod refusal;
pub mod rules;
pub mod source;

/// How many bytes the map of blocks has.
pub const MAP_BYTES: usize = 16384;
