// Regions over files in a folder, and their rack.
#![tactic(auto)]

pub mod file_rack;
pub mod file_region;
