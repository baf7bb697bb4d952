// A region becomes an open pool: it is formatted where it is blank, and attached to once its content was checked.
#![tactic(auto)]

pub mod attach;
pub mod cause;
pub mod format;
pub mod make;
mod tables;
