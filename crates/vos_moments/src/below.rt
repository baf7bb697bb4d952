// What crates above name of those below, passed on to them.
pub use vos_punches::below::{levels as levels, tree as tree};
