// Why a region isn't opened as a pool.
ghost use Rattle.std.specs.Prelude.{◌≡◌};
ghost use Rattle.vos_pool_make.specs.Made.{cause_of_check, cause_of_undo};

use pmem_undo::opening::UndoCause;
use thiserror::Error;
use vos_check_base::refusal::CheckNo;

/// Why a region isn't opened as a pool.
#[derive(Clone, Copy, Debug, Error)]
pub enum OpenCause {
    #[error("stopped")]
    Stopped,
    #[error("byte {byte} isn't allowed at {at}")]
    Foreign { at: u64, byte: u8 },
    #[error("made for {found} targets, asked for {asked}")]
    Shape { found: u8, asked: u8 },
    #[error("out of memory")]
    Memory,
}

/// Why, by the check of a region.
pub(crate) fn cause_of_check(cause: CheckNo) -> OpenCause
    ensures { result ≡ cause_of_check cause }
{
    match cause {
        CheckNo::Stopped => OpenCause::Stopped,
        CheckNo::Foreign { at, byte } => OpenCause::Foreign { at, byte },
        CheckNo::Memory => OpenCause::Memory,
    }
}

/// Why, by its undo log.
pub(crate) fn cause_of_undo(cause: UndoCause) -> OpenCause
    ensures { result ≡ cause_of_undo cause }
{
    match cause {
        UndoCause::Stopped => OpenCause::Stopped,
        UndoCause::Memory => OpenCause::Memory,
    }
}
