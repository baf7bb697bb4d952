// Where a leader is.
use base_types::epoch::TargetId;

/// Where a leader is: the number of its target, the number of targets, and the incarnation of its
/// target.
#[derive(Clone, Copy)]
pub struct Seat {
    pub me: TargetId,
    pub targets: u8,
    pub incarnation: u64,
}
