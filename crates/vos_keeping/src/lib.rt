// What a target keeps where its versions and entries are settled or removed.
#![tactic(auto)]

pub mod below;
pub mod laws;
