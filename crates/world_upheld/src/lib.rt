// All facts together over every event, snapshots and aggregation among them.
#![tactic(auto)]

pub mod causing;
pub mod explained;
pub mod hearing;
pub mod order;
pub mod reasons;
pub mod stored;
pub mod upheld;
