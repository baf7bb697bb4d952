// Objects on trees in memory that settle and prune by moments, beside a plain list of versions.
#![tactic(auto)]

#[cfg(test)]
mod draw;
#[cfg(test)]
mod draw_tests;
#[cfg(test)]
mod lines;
#[cfg(test)]
mod place;
#[cfg(test)]
mod store;
#[cfg(test)]
mod views;
