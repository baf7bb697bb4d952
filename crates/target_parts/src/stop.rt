// Why a turn isn't whole.
ghost use Rattle.std.specs.Prelude.{◌≡◌};
ghost use Rattle.target_parts.specs.Stops.{stop_memory, stop_of};

use crate::halt::Halt;
use base_types::epoch::Epoch;
use base_types::id::AttemptId;
use base_types::items::Items;
use base_types::report::Lines;
use std::alloc::{AllocError, AllocFailed, Global};
use thiserror::Error;

/// Why a turn isn't whole: the store stopped, where an epoch that was issued in this turn and that the
/// lease covers, and the lines that the turn added, are shown; a byte of the store's region isn't of the
/// layout, which an opening alone meets; or memory was wanting.
#[derive(Debug, Drop, Error)]
pub enum TargetStop {
    #[error("the store stopped")]
    Store {
        issued: Option<(AttemptId, Epoch)>,
        lines: Lines,
    },
    #[error("byte {byte} at {at} is foreign")]
    Foreign {
        at: u64,
        byte: u8,
    },
    #[error("out of memory")]
    Memory,
}

impl From<AllocError> for TargetStop {
    ghost from_gives = { λ _ stop. stop ≡ stop_memory };

    fn from(_error: AllocError) -> TargetStop {
        TargetStop::Memory
    }
}

impl<T: Drop> From<AllocFailed<T>> for TargetStop {
    ghost from_gives = { λ _ stop. stop ≡ stop_memory };

    fn from(_error: AllocFailed<T>) -> TargetStop {
        TargetStop::Memory
    }
}

/// Why a turn isn't whole of which a part isn't done, and the epoch that it issued.
pub fn stop_of(alloc: Global, halt: Halt, issued: Option<(AttemptId, Epoch)>) -> TargetStop
    ensures { result ≡ stop_of halt issued }
{
    match halt {
        Halt::Stopped => TargetStop::Store {
            issued,
            lines: Items::new(alloc),
        },
        Halt::Memory => TargetStop::Memory,
    }
}
