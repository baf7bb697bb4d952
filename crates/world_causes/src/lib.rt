// Why each outcome shows its cause, what is told of how attempts ended, and epochs and versions where targets stop and open again.
#![tactic(auto)]

pub mod firsts;
pub mod handing;
pub mod hearing;
pub mod losses;
pub mod outcomes;
pub mod restarts;
