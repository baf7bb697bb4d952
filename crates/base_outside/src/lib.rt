// The outside of the store: the traits that it asks for, and objects in memory that meet them.
#![tactic(auto)]

pub mod adapters;
mod bounded;
pub mod bytes;
pub mod clock;
pub mod count_clock;
pub mod failing_calls;
pub mod gate;
pub mod mem_sink;
pub mod mem_source;
pub mod rack;
pub mod region;
mod remaining;
pub mod sink;
pub mod source;
pub mod sure_rack;
pub mod sure_region;
pub mod sure_sink;
pub mod sure_source;

use std::alloc::AllocError;

/// A call of the outside failed.
#[derive(Clone, Copy, Debug, PartialEq, Eq)]
pub struct Failed;

/// The number of a target, from 0.
pub type TargetId = u8;

/// Want of memory.
pub type Memory = AllocError;
