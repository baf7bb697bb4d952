// What crates above name of those below, passed on to them.
pub use vos_extent as extent;
pub use vos_single as single;
