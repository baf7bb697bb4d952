// Trees whose values lead to further things: what stands in them, and the laws of a change in one of them.
#![tactic(auto)]

pub mod below;
pub mod change;
