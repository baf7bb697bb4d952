// A turn of versions and of an entry, made by one commit on an open pool.
#![tactic(auto)]

pub mod below;
pub mod pool;
pub mod staging;
