// Entries of attempts on trees, each with the list of the nodes that its attempt has in other trees.
#![tactic(auto)]

pub mod entries;
pub mod list;
