// Balanced trees of byte keys, whose nodes are blocks of any pages.
#![tactic(auto)]

pub mod below;
mod grow;
mod rejoin;
mod shrink;
pub mod tree;

pub use pmem_pages::node::{Pair, TreeKey, Value};
pub use pmem_tree_base::refusal::TreeNo;

/// No tree is higher: a higher one that is balanced has more nodes than there are block numbers.
pub(crate) const HIGHEST: u8 = 66;
