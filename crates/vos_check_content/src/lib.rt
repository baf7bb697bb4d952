// The check of a content whole: fixed places, objects and entries.
#![tactic(auto)]

pub mod below;
pub mod content;
mod fixed;
pub mod laws;
pub mod region;
mod roots;
