// What crates above name of those below, passed on to them.
pub use vos_levels as levels;
pub use vos_levels::below::{tree as tree, tree_base as tree_base, values as values};
