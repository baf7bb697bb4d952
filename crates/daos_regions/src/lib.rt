// Regions in memory that fail, that forget what was not flushed, and that can be fused.
#![tactic(auto)]

mod disk;
pub mod fused;
pub mod keep;
pub mod mem_rack;
pub mod mem_region;
mod piece;
