// What crates above name of those below, passed on to them.
pub use vos_levels as levels;
pub use vos_levels::below::{tree as tree, values as values};
