// Tests of versions on trees, in memory.
#![tactic(auto)]

#[cfg(test)]
mod extent_tests;
