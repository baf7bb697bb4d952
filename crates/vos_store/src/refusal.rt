// Why a store doesn't do what it is asked. `Stopped` is in each: see `Store`.

use base_types::epoch::Epoch;
use base_types::id::AttemptId;
use thiserror::Error;

/// The store is stopped.
#[derive(Clone, Copy, Debug, Error)]
#[error("stopped")]
pub struct Stopped;

/// Why containers aren't enlisted: with those that are there they are more than 256.
#[derive(Clone, Copy, Debug, Error)]
pub enum EnlistNo {
    #[error("stopped")]
    Stopped,
    #[error("{together} containers together")]
    TooMany { together: u32 },
    #[error("out of memory")]
    Memory,
}

/// Why nothing is prepared: fewer blocks are free than the writes may take.
#[derive(Clone, Copy, Debug, Error)]
pub enum PrepareNo {
    #[error("stopped")]
    Stopped,
    #[error("{need} blocks needed, {free} free")]
    NoSpace { need: u32, free: u32 },
    #[error("out of memory")]
    Memory,
}

/// Why nothing is frozen: the epoch is at or below the aggregated-to epoch, which is shown with the
/// number of its aggregation; or 256 other places are used.
#[derive(Clone, Copy, Debug, Error)]
pub enum FreezeNo {
    #[error("stopped")]
    Stopped,
    #[error("aggregated by {1}")]
    Below(Epoch, u32),
    #[error("no place for a snapshot")]
    NoPlace,
}

/// Why nothing is discarded: a version in the range isn't settled, that of this attempt.
#[derive(Clone, Copy, Debug, Error)]
pub enum DiscardNo {
    #[error("stopped")]
    Stopped,
    #[error("{0:?} isn't settled")]
    Unsettled(AttemptId),
    #[error("out of memory")]
    Memory,
}

/// Why a read isn't answered: a version in its way isn't settled, that of this attempt; or the
/// versions below its epoch were aggregated, up to this epoch by the aggregation of this number.
#[derive(Clone, Copy, Debug, Error)]
pub enum FetchNo {
    #[error("stopped")]
    Stopped,
    #[error("{0:?} isn't settled")]
    Unsettled(AttemptId),
    #[error("aggregated by {1}")]
    Aggregated(Epoch, u32),
    #[error("out of memory")]
    Memory,
}

/// Why a question isn't answered.
#[derive(Clone, Copy, Debug, Error)]
pub enum LaterNo {
    #[error("stopped")]
    Stopped,
    #[error("out of memory")]
    Memory,
}

/// Why a store isn't opened again: this byte at this place of its region isn't of the layout.
#[derive(Clone, Copy, Debug, Error)]
pub enum ReopenNo {
    #[error("stopped")]
    Stopped,
    #[error("byte {byte} at {at} is foreign")]
    Foreign { at: u64, byte: u8 },
    #[error("out of memory")]
    Memory,
}
