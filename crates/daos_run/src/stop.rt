// Why a run gives no report.
ghost use Rattle.std.specs.Prelude.{◌≡◌};
ghost use Rattle.daos_run.specs.declared.stop.RunStop.TheVariants.{Memory as NoMemory};

use base_types::epoch::TargetId;
pub use daos_status::part::Part;
use std::alloc::{AllocError, AllocFailed};
use thiserror::Error;

/// Why a run gives no report.
#[derive(Clone, Copy, Debug, Error)]
pub enum RunStop {
    /// The rack, or the region of this target while it was opened, failed.
    #[error("target {target}: rack fault")]
    RackFault {
        target: TargetId,
    },
    /// The region of this target holds a byte, at this place, that none of ours does.
    #[error("target {target}: byte {byte} at {at} is foreign")]
    Foreign {
        target: TargetId,
        at: u64,
        byte: u8,
    },
    /// The region of this target was made for another shape.
    #[error("target {target}: made for {found}, asked for {asked}")]
    Shape {
        target: TargetId,
        what: Part,
        found: u64,
        asked: u64,
    },
    /// There was no memory.
    #[error("out of memory")]
    Memory,
}

impl From<AllocError> for RunStop {
    ghost from_gives = { λ _ e. e ≡ NoMemory };

    fn from(_error: AllocError) -> RunStop {
        RunStop::Memory
    }
}

impl<T: Drop> From<AllocFailed<T>> for RunStop {
    ghost from_gives = { λ _ e. e ≡ NoMemory };

    fn from(_error: AllocFailed<T>) -> RunStop {
        RunStop::Memory
    }
}
