// What a target leaves that hears a Verdict: its turn made again.
#![tactic(auto)]

pub mod again;
pub mod asks;
pub mod below;
pub mod verdict;
