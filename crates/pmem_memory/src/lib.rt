// Blocks in memory, for tests of what stands in blocks.
#![tactic(auto)]

pub mod mem_pages;
