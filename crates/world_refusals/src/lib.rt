// By what attempts are refused, as their commands go, and that a client that is alone is never told to restart, at each moment of any run.
#![tactic(auto)]

pub mod alone;
pub mod telling;
