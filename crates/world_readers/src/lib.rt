// What waits, and what timestamps and lines tell, is of the script's attempts, whatever targets kept at the opening.
#![tactic(auto)]

pub mod forms;
pub mod kinds;
pub mod lines;
pub mod stamps;
