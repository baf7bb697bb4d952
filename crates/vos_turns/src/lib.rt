// Versions are settled or removed, with a step of an entry, on trees whose entries list nothing.
#![tactic(auto)]

pub mod entries;
pub mod turns;
pub mod versions;
