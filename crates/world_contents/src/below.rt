// What crates above name of those below, passed on to them.
pub use world_commit::below::{stamp as stamp, world as world};
