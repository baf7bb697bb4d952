// Why stores aren't opened for a run.
ghost use Rattle.std.specs.Prelude.{◌≡◌};
ghost use Rattle.run_starts.specs.Stops.{not_enlisted, not_opened, wanting};

use base_types::epoch::TargetId;
use run_opening::stop::OpeningStop;
use std::alloc::{AllocError, AllocFailed};
use thiserror::Error;
use vos_store::refusal::EnlistNo;

/// The store of a target stopped; or it has no place for a script's containers, which are so many with its
/// own; or memory was wanting.
#[derive(Clone, Copy, Debug, Error)]
pub enum StartStop {
    #[error("the store of target {0} stopped")]
    Stopped(TargetId),
    #[error("target {target}: {together} containers together")]
    TooMany { target: TargetId, together: u32 },
    #[error("out of memory")]
    Memory,
}

impl From<AllocError> for StartStop {
    ghost from_gives = { λ _ stop. stop ≡ wanting };

    fn from(_error: AllocError) -> StartStop {
        StartStop::Memory
    }
}

impl<T: Drop> From<AllocFailed<T>> for StartStop {
    ghost from_gives = { λ _ stop. stop ≡ wanting };

    fn from(_error: AllocFailed<T>) -> StartStop {
        StartStop::Memory
    }
}

/// Why containers aren't added to the store of a target.
pub fn enlist_stop(target: TargetId, no: EnlistNo) -> StartStop
    ensures { result ≡ not_enlisted target no }
{
    match no {
        EnlistNo::TooMany { together } => StartStop::TooMany { target, together },
        EnlistNo::Stopped => StartStop::Stopped(target),
        EnlistNo::Memory => StartStop::Memory,
    }
}

/// Why an opening isn't whole.
pub fn opening_stop(stop: OpeningStop) -> StartStop
    ensures { result ≡ not_opened stop }
{
    match stop {
        OpeningStop::Stopped(target) => StartStop::Stopped(target),
        OpeningStop::Memory => StartStop::Memory,
    }
}
