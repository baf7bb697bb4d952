// Makes the script of a load.
#![tactic(auto)]

mod commands;
pub mod loads;
mod places;
pub mod script;

pub use script::make_script;
