// Trees in the blocks of a region are small, and so one write or one entry always fits a stage.
#![tactic(auto)]

pub mod laws;
