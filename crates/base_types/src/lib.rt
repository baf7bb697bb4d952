// The plain types that every crate of the store shares: names, paths, operations, scripts, reports.
#![tactic(auto)]

pub mod answer;
pub mod entry;
pub mod epoch;
pub mod fault;
pub mod hash;
pub mod id;
pub mod items;
pub mod job;
pub mod key;
pub mod operation;
pub mod outcome;
pub mod path;
pub mod report;
pub mod script;
pub mod shown;
pub mod slot;
pub mod snapshot;
pub mod tag;
