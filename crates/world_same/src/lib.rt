// Whether two worlds, or two parts of worlds, are the same.
#![tactic(auto)]

pub mod clients;
pub mod durables;
pub mod lists;
pub mod memories;
pub mod messages;
pub mod operations;
pub mod outcomes;
pub mod paths;
pub mod reports;
pub mod same;
pub mod worlds;
