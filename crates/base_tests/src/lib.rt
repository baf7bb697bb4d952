// Tests of the crates at the base: values that were published or computed elsewhere, limits, words, and the
// outside in memory. Each table is walked by one function, which tells the first row that differs.
#![tactic(auto)]

#[cfg(test)]
mod clocks;
#[cfg(test)]
mod limits;
#[cfg(test)]
mod outside;
#[cfg(test)]
mod slots;
#[cfg(test)]
mod vectors;
#[cfg(test)]
mod words;
