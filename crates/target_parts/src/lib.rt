// Parts of a target's turns: why one stops, the epoch of a request and the lease for it, what a target
// knows, and what follows from a turn.
#![tactic(auto)]

pub mod below;
pub mod epochs;
pub mod halt;
pub mod kept;
pub mod knows;
pub mod later;
pub mod stop;
pub mod telling;
