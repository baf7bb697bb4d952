// Versions in order, of which it is known how many of the first are done.
#![tactic(auto)]

mod open;
mod places;
pub mod rows;
pub mod sweeps;
pub mod table;
