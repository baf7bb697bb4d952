// Why words say nothing.
ghost use Rattle.std.specs.Prelude.{◌≡◌};
ghost use Rattle.report_grammar.specs.declared.fault.RowNo.TheVariants.{Memory as NoMemory};

use std::alloc::{AllocError, AllocFailed};

/// Why words say nothing: they are none of a row, or want of memory.
#[derive(Clone, Copy)]
pub enum RowNo {
    Bad,
    Memory,
}

impl From<AllocError> for RowNo {
    ghost from_gives = { λ _ e. e ≡ NoMemory };

    fn from(_error: AllocError) -> RowNo {
        RowNo::Memory
    }
}

impl<T: Drop> From<AllocFailed<T>> for RowNo {
    ghost from_gives = { λ _ e. e ≡ NoMemory };

    fn from(_error: AllocFailed<T>) -> RowNo {
        RowNo::Memory
    }
}
