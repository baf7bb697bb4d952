// The clock by which a target issues epochs, and the leases that cover them.
#![tactic(auto)]

pub mod clock;
pub mod lease;
