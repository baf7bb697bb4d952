// Tests of a region that is opened as a pool.
#![tactic(auto)]

#[cfg(test)]
mod pool;
#[cfg(test)]
mod pool_tests;
