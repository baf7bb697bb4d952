// Why a text is no report.
ghost use Rattle.std.specs.Prelude.{◌≡◌};
ghost use Rattle.report_reader.specs.declared.fault.ReportNo.TheVariants.{Memory as NoMemory};

use std::alloc::AllocError;
use thiserror::Error;

/// Why a text is no report: its first bad line, counted from 1, or want of memory.
#[derive(Clone, Copy, Debug, Error)]
pub enum ReportNo {
    /// The first line that is none of the format; 2^32 - 1 also where that is a later one.
    #[error("bad line {0}")]
    BadLine(u32),
    /// There was no memory.
    #[error("out of memory")]
    Memory,
}

impl From<AllocError> for ReportNo {
    ghost from_gives = { λ _ e. e ≡ NoMemory };

    fn from(_error: AllocError) -> ReportNo {
        ReportNo::Memory
    }
}
