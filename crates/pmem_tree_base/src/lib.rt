// The tree below a block: a node is read or staged, look-ups, another value at a key, two trees and a pair
// between them joined, and why a call is refused.
#![tactic(auto)]

pub mod find;
pub mod join;
pub mod put;
pub mod read;
pub mod refusal;
pub mod write;
