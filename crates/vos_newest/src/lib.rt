// The newest version that touches a cell, whatever the order in which versions are listed.
#![tactic(auto)]

pub mod laws;
