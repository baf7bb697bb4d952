// Why a region doesn't become a pool.
ghost use Rattle.std.specs.Prelude.{◌≡◌};
ghost use Rattle.vos_pool.specs.Causes.{open_cause};

use thiserror::Error;
use vos_pool_make::cause::OpenCause;

/// Why a region doesn't become a pool.
#[derive(Clone, Copy, Debug, Error)]
pub enum PoolCause {
    #[error("stopped")]
    Stopped,
    #[error("byte {byte} isn't allowed at {at}")]
    Foreign { at: u64, byte: u8 },
    #[error("made for {found} targets, asked for {asked}")]
    Shape { found: u64, asked: u64 },
    #[error("out of memory")]
    Memory,
}

/// The region that was handed in, and why it isn't a pool.
#[derive(Drop)]
pub struct PoolNo<R> {
    pub region: R,
    pub cause: PoolCause,
}

/// Why, by the opening.
pub(crate) fn pool_cause(cause: OpenCause) -> PoolCause
    ensures { open_cause result ≡ cause }
{
    match cause {
        OpenCause::Stopped => PoolCause::Stopped,
        OpenCause::Foreign { at, byte } => PoolCause::Foreign { at, byte },
        OpenCause::Shape { found, asked } => PoolCause::Shape {
            found: u64::from(found),
            asked: u64::from(asked),
        },
        OpenCause::Memory => PoolCause::Memory,
    }
}
