// Writes that are noted.
use crate::keep::Keep;

/// A write: a place and the bytes from there on.
#[derive(Drop)]
pub struct Piece {
    pub place: u64,
    pub bytes: Vec<u8>,
}

/// The writes between two flushes or openings, and which of them its end kept.
#[derive(Drop)]
pub struct Stretch {
    pub writes: Vec<Piece>,
    pub keep: Keep,
}
