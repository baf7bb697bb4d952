// Why an opening isn't whole.
ghost use Rattle.std.specs.Prelude.{◌≡◌};
ghost use Rattle.run_opening.specs.All.{stop_at, wanting};

use base_types::epoch::TargetId;
use std::alloc::{AllocError, AllocFailed};
use target_parts::halt::Halt;
use thiserror::Error;

/// The store of a target stopped, or memory was wanting.
#[derive(Clone, Copy, Debug, Error)]
pub enum OpeningStop {
    #[error("the store of target {0} stopped")]
    Stopped(TargetId),
    #[error("out of memory")]
    Memory,
}

impl From<AllocError> for OpeningStop {
    ghost from_gives = { λ _ stop. stop ≡ wanting };

    fn from(_error: AllocError) -> OpeningStop {
        OpeningStop::Memory
    }
}

impl<T: Drop> From<AllocFailed<T>> for OpeningStop {
    ghost from_gives = { λ _ stop. stop ≡ wanting };

    fn from(_error: AllocFailed<T>) -> OpeningStop {
        OpeningStop::Memory
    }
}

/// Why an opening isn't whole of which a target's part isn't done.
pub fn stop_at(target: TargetId, halt: Halt) -> OpeningStop
    ensures { result ≡ stop_at target halt }
{
    match halt {
        Halt::Stopped => OpeningStop::Stopped(target),
        Halt::Memory => OpeningStop::Memory,
    }
}
