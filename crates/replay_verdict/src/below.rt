// What crates above name of those below, passed on to them.
pub use replay_fetch as fetch;
