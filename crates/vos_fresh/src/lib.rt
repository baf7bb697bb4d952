// What a pool writes first over a region of zeros.
#![tactic(auto)]

pub mod fresh;
pub mod laws;
