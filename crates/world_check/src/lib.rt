// Whether a list of events is a run.
#![tactic(auto)]

pub mod below;
pub mod check;
pub mod hears;
pub mod starts;
pub mod targets;
pub mod told;
