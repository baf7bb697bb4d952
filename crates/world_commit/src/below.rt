// What crates above name of those below, passed on to them.
pub use world_base as world;
pub use world_base::below::stamp;
