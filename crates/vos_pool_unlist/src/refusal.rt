// Why lists aren't given back.
use thiserror::Error;

/// Why lists aren't given back. One that is too long for one commit counts as want of memory.
#[derive(Clone, Copy, Debug, Error)]
pub enum UnlistNo {
    #[error("stopped")]
    Stopped,
    #[error("out of memory")]
    Memory,
}
