// What goes about between clients and targets, and what lines tell of clients.
#![tactic(auto)]

pub mod apart;
pub mod clients;
pub mod endings;
pub mod lines;
pub mod lives;
pub mod snapshots;
pub mod waits;
