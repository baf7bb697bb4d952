// Keys and values of the trees of a target, and blocks of chains, as bytes.
#![tactic(auto)]

mod fields;
pub mod keys;
pub mod laws;
pub mod links;
pub mod values;
