// A leader that opened again: it asks the members of what it led what they hold, and goes on as a leader by what they answer.
#![tactic(auto)]

pub mod below;
pub mod resync;
pub mod statuses;
