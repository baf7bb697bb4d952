// A write that is done is taken out of objects, with its bytes.
#![tactic(auto)]

pub mod find;
pub mod marks;
pub mod remove;
