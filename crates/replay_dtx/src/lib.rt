// What a target leaves that hears what other targets tell or ask it, or does its idle work: its turn made
// again.
#![tactic(auto)]

pub mod acks;
pub mod idle;
pub mod marks;
pub mod queries;
pub mod seats;
