// A target hears what other targets tell of attempts, and does its idle work.
#![tactic(auto)]

pub mod acks;
pub mod idle;
pub mod marks;
pub mod queries;
