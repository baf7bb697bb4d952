// A range of a region whose bytes stand in a buffer.

/// A range of a region, and where its bytes begin in a buffer.
#[derive(Clone, Copy)]
pub struct Span {
    pub place: u64,
    pub start: usize,
    pub length: usize,
}
