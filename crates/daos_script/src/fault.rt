// Why a text is no script.
ghost use Rattle.std.specs.Prelude.{◌≡◌};
ghost use Rattle.daos_script.specs.declared.fault.ScriptNo.TheVariants.{Memory as NoMemory};

use base_types::fault::ScriptFault;
use std::alloc::AllocError;
use thiserror::Error;

/// Why there is no script: its first fault, or want of memory.
#[derive(Debug, Drop, Error)]
pub enum ScriptNo {
    /// The first faulty line, and why.
    #[error("fault at line {}", .0.line)]
    Fault(ScriptFault),
    /// There was no memory.
    #[error("out of memory")]
    Memory,
}

impl From<AllocError> for ScriptNo {
    ghost from_gives = { λ _ e. e ≡ NoMemory };

    fn from(_error: AllocError) -> ScriptNo {
        ScriptNo::Memory
    }
}
