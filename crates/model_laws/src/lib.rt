// Laws of the model: what holds of all reads, maps, versions and transactions.
#![tactic(auto)]

pub mod deciding;
pub mod groups;
pub mod matches;
pub mod prunes;
pub mod reads;
pub mod targets;
pub mod versions;
