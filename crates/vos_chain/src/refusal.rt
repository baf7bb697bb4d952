// Why bytes were not read.
use pmem_pages::refusal::Stopped;
use std::alloc::{AllocError, AllocFailed};
use thiserror::Error;

/// Why bytes were not read: the pages stopped, or memory is wanting.
#[derive(Clone, Copy, Debug, Error)]
pub enum PiecesNo {
    #[error("stopped")]
    Stopped,
    #[error("out of memory")]
    Memory,
}

impl From<Stopped> for PiecesNo {
    ghost use Rattle.std.specs.Prelude.{◌≡◌};
    ghost use Rattle.vos_chain.specs.declared.refusal.PiecesNo.TheVariants.{Stopped as stopped};

    ghost from_gives = { λ _ e. e ≡ stopped };

    fn from(_: Stopped) -> Self {
        PiecesNo::Stopped
    }
}

impl From<AllocError> for PiecesNo {
    ghost use Rattle.std.specs.Prelude.{◌≡◌};
    ghost use Rattle.vos_chain.specs.declared.refusal.PiecesNo.TheVariants.{Memory};

    ghost from_gives = { λ _ e. e ≡ Memory };

    fn from(_: AllocError) -> Self {
        PiecesNo::Memory
    }
}
