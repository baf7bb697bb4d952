// A pool that is open: its region's blocks, and its fixed places as it remembers them.
#![tactic(auto)]

pub mod below;
pub mod committing;
pub mod counting;
pub mod enlisting;
pub mod opened;
pub mod snapshots;
