// A target hears a Fetch, and tries those again that waited for an attempt.
#![tactic(auto)]

pub mod again;
pub mod fetches;
pub mod reads;
