// What crates above name of those below, passed on to them.
pub use world_list as list;
