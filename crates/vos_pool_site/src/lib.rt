// Where a pool stands: open with what it keeps in memory, or closed.
#![tactic(auto)]

pub mod closed;
pub mod closing;
pub mod site;
