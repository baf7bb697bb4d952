// Lists of events told by hand: a run in rounds, by tables of what each turn leaves, and the same with something
// changed.
#![tactic(auto)]

#[cfg(test)]
mod letters;
#[cfg(test)]
mod own_attempt;
#[cfg(test)]
mod parts;
#[cfg(test)]
mod tables;
#[cfg(test)]
mod tests;
#[cfg(test)]
mod worlds;
