// What crates above name of those below, passed on to them.
pub use client_core as client;
pub use run_opening::below::parts;
pub use target_core as target;
