// What crates above name of those below, passed on to them.
pub use run_stage::below::client;
