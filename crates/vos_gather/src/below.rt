// What crates above name of those below, passed on to them.
pub use vos_lists as lists;
pub use vos_lists::below::reads;
