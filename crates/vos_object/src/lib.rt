// Objects of a target on trees.
#![tactic(auto)]

pub mod each;
pub mod laws;
pub mod moments;
pub mod object;
pub mod refusal;
pub mod settle;
