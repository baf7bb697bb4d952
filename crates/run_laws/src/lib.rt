// What a run of actors in an order of turns shows of a world, what its turns lead to, and what it comes to.
#![tactic(auto)]

pub mod below;
pub mod reports;
pub mod shows;
pub mod turns;
