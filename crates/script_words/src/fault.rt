// Why a line says nothing.
ghost use Rattle.std.specs.Prelude.{◌≡◌};
ghost use Rattle.script_words.specs.declared.fault.LineNo.TheVariants.{Memory as NoMemory};

use base_types::fault::Why;
use std::alloc::{AllocError, AllocFailed};

/// Why a line says nothing.
#[derive(Drop)]
pub enum LineNo {
    /// What is wrong with the line.
    Fault(Why),
    /// There was no memory.
    Memory,
}

impl From<AllocError> for LineNo {
    ghost from_gives = { λ _ e. e ≡ NoMemory };

    fn from(_error: AllocError) -> LineNo {
        LineNo::Memory
    }
}

impl<T: Drop> From<AllocFailed<T>> for LineNo {
    ghost from_gives = { λ _ e. e ≡ NoMemory };

    fn from(_error: AllocFailed<T>) -> LineNo {
        LineNo::Memory
    }
}
