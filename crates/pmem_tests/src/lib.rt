// Tests over the layers of a region: commits that are cut, blocks, files, and trees in memory.
#![tactic(auto)]

#[cfg(test)]
mod block_tests;
#[cfg(test)]
mod commit_tests;
#[cfg(test)]
mod file_tests;
#[cfg(test)]
mod tree_tests;
