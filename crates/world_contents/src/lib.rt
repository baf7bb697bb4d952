// What targets keep and what they answered stands for the decided transactions.
#![tactic(auto)]

pub mod below;
pub mod frozen;
pub mod gots;
pub mod posts;
