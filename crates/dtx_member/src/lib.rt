// The machine of a member: it answers its leaders, and parks Fetches until it knows what became of
// an attempt.
#![tactic(auto)]

mod inquiries;
pub mod member;
mod parked;
