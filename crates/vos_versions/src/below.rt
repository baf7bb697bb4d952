// What crates above name of those below, passed on to them.
pub use vos_chain as chain;
pub use vos_chain::below::{tree as tree, tree_base as tree_base};
