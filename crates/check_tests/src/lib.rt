// Tests of the check of a region when a pool is opened.
#![tactic(auto)]

#[cfg(test)]
mod image;
#[cfg(test)]
mod whole_tests;
