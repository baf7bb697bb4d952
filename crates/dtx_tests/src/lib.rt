// Tests of the machines of two-phase commit.
#![tactic(auto)]

#[cfg(test)]
mod members;
#[cfg(test)]
mod tables;
