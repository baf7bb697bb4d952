// An in-memory store, over lists, which stops at the changes that it is told to.
#![tactic(auto)]

mod accounts;
mod counted;
mod counting;
mod plain;
mod stop_plan;
pub mod store;
