// Rows over stores: several calls in a row.
#![tactic(auto)]

#[cfg(test)]
mod rows;
#[cfg(test)]
mod steps;
#[cfg(test)]
mod tests;
