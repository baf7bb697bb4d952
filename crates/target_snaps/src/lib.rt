// A target makes snapshots and aggregates containers: the turns in which it hears what clients ask for them, what
// target 0 asks of the others, and what those answer.
#![tactic(auto)]

pub mod aggregates;
pub mod alone;
pub mod freezes;
pub mod freezing;
pub mod helds;
pub mod limits;
pub mod losses;
pub mod places;
pub mod prunes;
pub mod request;
pub mod settling;
pub mod snaps;
pub mod tells;
