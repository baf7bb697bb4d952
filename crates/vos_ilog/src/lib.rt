// Logs of creations and punches.
#![tactic(auto)]

pub mod ilog;
pub mod laws;
pub mod settle;
