// Reads the script of a run: what it declares, and the commands of its clients.
#![tactic(auto)]

pub mod client;
pub mod fault;
pub mod keys;
pub mod laws;
pub mod lists;
pub mod present;
mod reading;
pub mod script;
pub mod tx;

pub use fault::ScriptNo;
pub use script::read_script;
