// What follows of reports that are legal: where there is room, where clocks are certain, and of a lone client.
#![tactic(auto)]

pub mod certain;
pub mod lone;
pub mod room;
