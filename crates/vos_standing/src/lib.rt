// What stands in the content of a region, in its fixed places and in its blocks, and what stays of it where either
// changes.
#![tactic(auto)]

pub mod below;
pub mod laws;
