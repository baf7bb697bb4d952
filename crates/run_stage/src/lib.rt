// The actors of a run in which targets may stop and open again, and one turn of each.
#![tactic(auto)]

pub mod below;
pub mod dues;
mod openings;
pub mod stage;
mod stops;
pub mod turns;
mod work;
