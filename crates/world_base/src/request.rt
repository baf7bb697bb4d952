// What is asked of a target, as the target hears it.
use base_types::entry::Entry;
use base_types::epoch::Epoch;
use base_types::id::AttemptId;
use base_types::operation::{MinorWrites, Read};

/// A read of a group's part of an operation's path.
#[derive(Drop)]
pub struct FetchRequest {
    pub attempt: AttemptId,
    pub op: u8,
    pub group: u8,
    pub ep: Option<Epoch>,
    pub first: Option<Epoch>,
    pub tracker: Epoch,
    pub read: Read,
    pub snapshot: bool,
}

/// An attempt's writes, which their leader is to commit.
#[derive(Drop)]
pub struct CommitRequest {
    pub attempt: AttemptId,
    pub ep: Option<Epoch>,
    pub first: Option<Epoch>,
    pub tracker: Epoch,
    pub writes: MinorWrites,
}

/// An attempt's writes, which a member is to prepare: the entry of its leader, the first epoch issued
/// to its command, the writes of the member's groups, and the leader's incarnation.
#[derive(Drop)]
pub struct PrepareRequest {
    pub entry: Entry,
    pub first: Option<Epoch>,
    pub writes: MinorWrites,
    pub inc: u64,
}
