// Tests of read timestamps: later reads that are told, entities that share a slot, and many reads.
#![tactic(auto)]

#[cfg(test)]
mod stamps;
