// The limits of scripts, whose texts are too long to be kept as data.
#![tactic(auto)]

#[cfg(test)]
mod limits;
