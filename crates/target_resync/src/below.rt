// What crates above name of those below, passed on to them.
pub use target_dtx as dtx;
