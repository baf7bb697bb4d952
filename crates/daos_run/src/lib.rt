// Runs a script: its clients on its targets, in an order of turns, and the report of them.
#![tactic(auto)]

mod apart;
mod opening;
pub mod parts;
pub mod run;
pub mod run_on;
mod starting;
pub mod stop;
