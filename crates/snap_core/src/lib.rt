// Target 0 makes snapshots and aggregations with the other targets: whom it asks, who has answered, and how the
// attempts end.
#![tactic(auto)]

mod asking;
mod others;
pub mod snaps;
