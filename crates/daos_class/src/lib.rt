// Classes: their words, whether they fit the targets, and where they place objects.
#![tactic(auto)]

pub mod class;
pub mod place;

pub use base_types::hash::fnv1a;
