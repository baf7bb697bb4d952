// Messages that no run sends: a Mark before its Prepare, and what a leader is told of its own attempts.
#![tactic(auto)]

#[cfg(test)]
mod follows;
#[cfg(test)]
mod overtaken;
#[cfg(test)]
mod own;
#[cfg(test)]
mod steps;
#[cfg(test)]
mod tests;
