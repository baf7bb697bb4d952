// An undo log in a region: ranges of bytes that are changed together, whole or not at all.
#![tactic(auto)]

mod buffers;
mod commit;
mod log;
pub mod opening;
mod restore;
mod show;
mod span;
pub mod undo_region;

/// The place of the gate byte. The log is open where it isn't zero.
pub(crate) const GATE: u64 = 32768;

/// The place of the log body.
pub(crate) const LOG: u64 = 36864;

/// The first place after the log body.
pub(crate) const LOG_END: u64 = 307200;

/// The most ranges of one commit.
pub(crate) const MOST_RANGES: usize = 1024;

/// The most bytes of the ranges of one commit.
pub(crate) const MOST_BYTES: usize = 256000;

/// How long a log body may be.
pub(crate) const BODY_ROOM: usize = 264200;
