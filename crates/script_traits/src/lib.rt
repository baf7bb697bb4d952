// Which scripts are without snapshots, and which have keys as their names and keys.
#![tactic(auto)]

pub mod plain;
