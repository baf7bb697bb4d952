// What crates above name of those below, passed on to them.
pub use vos_pool_base as pool_base;
