// What is gathered of the trees of objects.
use base_types::epoch::Epoch;
use base_types::id::AttemptId;

/// A node of a log entry, of a single version or of an extent: its block, and of which attempt and epoch it
/// is.
#[derive(Clone, Copy)]
pub struct NodeRow {
    pub block: u32,
    pub by: AttemptId,
    pub epoch: Epoch,
}
