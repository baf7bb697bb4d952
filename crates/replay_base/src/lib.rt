// A target's turn, followed step by step: the epoch that may be issued, the lease, what is kept, and
// what is told.
#![tactic(auto)]

pub mod entries;
pub mod epochs;
pub mod free;
pub mod kept;
pub mod leases;
pub mod memories;
pub mod news;
pub mod told;
