// Drawn numbers: the same ones from the same start.
#![tactic(auto)]

pub mod draw;
