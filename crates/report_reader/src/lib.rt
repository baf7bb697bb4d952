// Reads the text of a report.
#![tactic(auto)]

pub mod fault;
pub mod marks;
mod reading;
pub mod report;
pub mod told;
