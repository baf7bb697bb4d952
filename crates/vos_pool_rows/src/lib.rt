// Changes of the rows that a pool keeps: its lease, containers and snapshots. Each is written to its region, and then made
// in memory.
#![tactic(auto)]

pub mod enlisting;
pub mod fusing;
pub mod leasing;
pub mod snapshots;
