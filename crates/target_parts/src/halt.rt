// Why a part of a turn isn't done.
ghost use Rattle.std.specs.Prelude.{◌≡◌};
ghost use Rattle.target_parts.specs.Halts.{memory, of_later, stopped};

use std::alloc::{AllocError, AllocFailed};
use vos_store::refusal::{LaterNo, Stopped};

/// The store is stopped, or memory was wanting.
#[derive(Clone, Copy)]
pub enum Halt {
    Stopped,
    Memory,
}

impl From<Stopped> for Halt {
    ghost from_gives = { λ _ halt. halt ≡ stopped };

    fn from(_stopped: Stopped) -> Halt {
        Halt::Stopped
    }
}

impl From<LaterNo> for Halt {
    ghost from_gives = { λ no halt. halt ≡ of_later no };

    fn from(no: LaterNo) -> Halt {
        match no {
            LaterNo::Stopped => Halt::Stopped,
            LaterNo::Memory => Halt::Memory,
        }
    }
}

impl From<AllocError> for Halt {
    ghost from_gives = { λ _ halt. halt ≡ memory };

    fn from(_error: AllocError) -> Halt {
        Halt::Memory
    }
}

impl<T: Drop> From<AllocFailed<T>> for Halt {
    ghost from_gives = { λ _ halt. halt ≡ memory };

    fn from(_error: AllocFailed<T>) -> Halt {
        Halt::Memory
    }
}
