// Versions that are settled or pruned by the moments at which they were written.
#![tactic(auto)]

pub mod below;
pub mod moments;
pub mod steps;
