// The check of the tree of entries, with the lists of their nodes.
#![tactic(auto)]

pub mod below;
pub mod entries;
pub mod entry;
mod list;
pub mod nodes;
mod numbers;
mod seen;
