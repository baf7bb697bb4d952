// Clients and targets run a script, to its report.
#![tactic(auto)]

mod fuses;
mod report;
pub mod run;
mod values;
