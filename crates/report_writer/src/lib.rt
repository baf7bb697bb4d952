// The text of a report: a row for each line, its words apart by single spaces.
#![tactic(auto)]

mod answers;
pub mod attempts;
pub mod lines;
mod names;
mod outcomes;
pub mod text;
mod values;
mod words;
