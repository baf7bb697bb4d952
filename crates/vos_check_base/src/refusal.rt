// Why a check ended.
use base_outside::Failed;
use pmem_pages::refusal::Stopped;
use std::alloc::{AllocError, AllocFailed};
use thiserror::Error;

/// Why a check ended: a read failed, a byte isn't allowed at this place, or memory is wanting.
#[derive(Clone, Copy, Debug, PartialEq, Error)]
pub enum CheckNo {
    #[error("stopped")]
    Stopped,
    #[error("byte {byte} isn't allowed at {at}")]
    Foreign { at: u64, byte: u8 },
    #[error("out of memory")]
    Memory,
}

impl From<Stopped> for CheckNo {
    ghost use Rattle.std.specs.Prelude.{◌≡◌};
    ghost use Rattle.vos_check_base.specs.declared.refusal.CheckNo.TheVariants.{Stopped as stopped};

    ghost from_gives = { λ _ e. e ≡ stopped };

    fn from(_: Stopped) -> Self {
        CheckNo::Stopped
    }
}

impl From<Failed> for CheckNo {
    ghost use Rattle.std.specs.Prelude.{◌≡◌};
    ghost use Rattle.vos_check_base.specs.declared.refusal.CheckNo.TheVariants.{Stopped as stopped};

    ghost from_gives = { λ _ e. e ≡ stopped };

    fn from(_: Failed) -> Self {
        CheckNo::Stopped
    }
}

impl From<AllocError> for CheckNo {
    ghost use Rattle.std.specs.Prelude.{◌≡◌};
    ghost use Rattle.vos_check_base.specs.declared.refusal.CheckNo.TheVariants.{Memory};

    ghost from_gives = { λ _ e. e ≡ Memory };

    fn from(_: AllocError) -> Self {
        CheckNo::Memory
    }
}

impl<T: Drop> From<AllocFailed<T>> for CheckNo {
    ghost use Rattle.std.specs.Prelude.{◌≡◌};
    ghost use Rattle.vos_check_base.specs.declared.refusal.CheckNo.TheVariants.{Memory};

    ghost from_gives = { λ _ e. e ≡ Memory };

    fn from(_: AllocFailed<T>) -> Self {
        CheckNo::Memory
    }
}
