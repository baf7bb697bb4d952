// The fixed places of an image, checked from bytes in memory: what they hold, or the byte at fault.
#![tactic(auto)]

pub mod blocks;
mod conts;
pub mod fault;
mod fields;
pub mod header;
mod judge;
pub mod places;
mod snaps;
