// Prunes and discards on an open pool.
#![tactic(auto)]

pub mod marking;
pub mod pruning;
pub mod removing;
