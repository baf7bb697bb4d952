// Why a call of pages was refused.
use thiserror::Error;

/// The region failed, now or earlier. It has to be opened anew.
#[derive(Clone, Copy, Debug)]
pub struct Stopped;

/// More was to be staged than one commit takes.
#[derive(Clone, Copy, Debug)]
pub struct TooMuch;

/// Why no block was taken.
#[derive(Clone, Copy, Debug, PartialEq, Error)]
pub enum PageNo {
    #[error("no block is free")]
    NoBlock,
    #[error("more than one commit takes")]
    TooMuch,
}
