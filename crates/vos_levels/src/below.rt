// What crates above name of those below, passed on to them.
pub use pmem_tree as tree;
pub use pmem_tree::below::tree_base;
pub use vos_values as values;
