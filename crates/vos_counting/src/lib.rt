// Which versions count where these are the entries.
#![tactic(auto)]

pub mod counted;
pub mod prepared;
pub mod waiting;
