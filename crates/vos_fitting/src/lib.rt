// What fits the layout stays fitting where a write or an entry comes, is settled or goes.
#![tactic(auto)]

pub mod below;
pub mod laws;
