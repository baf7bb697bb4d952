// Tests of objects on trees, in memory.
#![tactic(auto)]

#[cfg(test)]
mod extent_tests;
#[cfg(test)]
mod layout_tests;
#[cfg(test)]
mod punch_tests;
#[cfg(test)]
mod settle_tests;
#[cfg(test)]
mod store;
