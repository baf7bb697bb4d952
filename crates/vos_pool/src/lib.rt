// The store of a target over a region.
#![tactic(auto)]

pub mod cause;
mod changing;
mod fusing;
mod making;
pub mod pool;
mod storing;
