// What reads are answered on versions in a row.
#![tactic(auto)]

pub mod chains;
pub mod index;
mod layers;
mod marks;
mod names;
mod paths;
mod pieces;
mod places;
pub mod reads;
mod singles;
