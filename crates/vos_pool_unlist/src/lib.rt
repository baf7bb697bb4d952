// Lists of nodes of entries are given back on an open pool.
#![tactic(auto)]

pub mod refusal;
pub mod staging;
pub mod unlisting;
