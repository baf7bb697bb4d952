// A region becomes an open pool, or is refused.
#![tactic(auto)]

pub mod below;
pub mod kept;
pub mod look;
