// What crates above name of those below, passed on to them.
pub use world_upheld as upheld;
