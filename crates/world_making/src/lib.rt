// What goes on where target 0 makes snapshots and aggregates with the others.
#![tactic(auto)]

pub mod dates;
pub mod fates;
pub mod freezings;
pub mod losses;
pub mod makers;
pub mod making;
pub mod prunings;
pub mod questions;
