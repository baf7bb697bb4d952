// Runs over stores that runs before them left, or that the outside fails.
#![tactic(auto)]

#[cfg(test)]
mod given_up;
#[cfg(test)]
mod kept_snapshots;
#[cfg(test)]
mod lone;
#[cfg(test)]
mod pair;
#[cfg(test)]
mod replicas;
#[cfg(test)]
mod tests;
#[cfg(test)]
mod two_runs;
