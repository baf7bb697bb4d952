// What a pool remembers of its fixed places, and which range each change of them writes.
#![tactic(auto)]

pub mod change;
pub mod counting;
pub mod enlisting;
pub mod identity;
pub mod laws;
pub mod plans;
pub mod reads;
mod rows;
mod seats;
pub mod table;
pub mod written;
