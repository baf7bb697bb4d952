// Two-phase commit, of each attempt, and the questions between targets, where targets may stop too.
#![tactic(auto)]

pub mod below;
pub mod fates;
pub mod questions;
pub mod requests;
pub mod statuses;
pub mod stops;
