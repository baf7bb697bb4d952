// What crates above name of those below, passed on to them.
pub use pmem_tree_base as tree_base;
