// Blocks of a region, with a stored map of those that are taken.
#![tactic(auto)]

mod bits;
pub mod blocks;
mod free_map;
mod pages;
pub mod stage;

/// The place of the map of blocks.
pub(crate) const MAP: u64 = 307200;

/// How many bytes the map of blocks has.
pub(crate) const MAP_LENGTH: usize = 16384;

/// The first block behind the map.
pub(crate) const FIRST_BLOCK: u32 = 1264;

/// The most blocks of one take.
pub(crate) const MOST_TAKEN: usize = 1024;
