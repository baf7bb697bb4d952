// Why words are no job.
use base_types::fault::WordFault;
use thiserror::Error;

/// Why words are no job: the first fault in them, or want of memory.
#[derive(Clone, Copy, Debug, Error)]
pub enum WordNo {
    /// The place of the first word with a fault, and what is wrong with it.
    #[error("fault at word {}", .0.place)]
    Fault(WordFault),
    /// There was no memory.
    #[error("out of memory")]
    Memory,
}
