// Whether a target heard a Fetch so: its turn made again from what is told of it, and compared.
#![tactic(auto)]

pub mod fetch;
pub mod later;
pub mod meets;
pub mod reads;
