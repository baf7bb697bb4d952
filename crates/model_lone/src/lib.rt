// What follows of legal reports of one client that was never told to restart, whatever its commands do; and by which causes commands may be refused.
#![tactic(auto)]

pub mod only;
pub mod unstopped;
