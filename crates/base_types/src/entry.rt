// What a target keeps of an attempt with writes, and what becomes of it.
use crate::epoch::{Epoch, TargetId};
use crate::id::AttemptId;
use crate::items::{Items, Memory, TryCopy};

/// An entry: the attempt, the epoch of its writes, its leader, its members and those of them that
/// confirmed the commit, one bit for each target from the lowest on, and whether it is committed
/// or still prepared.
#[derive(Clone, Copy)]
pub struct Entry {
    pub attempt: AttemptId,
    pub epoch: Epoch,
    pub leader: TargetId,
    pub members: u64,
    pub confirmed: u64,
    pub committed: bool,
}

impl TryCopy for Entry {
    fn copy(&self) -> Result<Entry, Memory> {
        Ok(*self)
    }
}

/// Entries of different attempts.
pub type Entries = Items<Entry>;

/// A step of an entry: a prepared one is committed, or aborted and so removed; a committed one has
/// a further confirmed member, or is forgotten.
#[derive(Clone, Copy)]
pub enum Settle {
    Commit,
    Abort,
    Confirm(TargetId),
    Forget,
}

/// What a member answers its leader of an attempt: its entry is prepared or committed, or it has
/// none.
#[derive(Clone, Copy)]
pub enum EntryState {
    Prepared,
    Committed,
    Absent,
}

/// What a leader answers a member of an attempt.
#[derive(Clone, Copy, Debug, PartialEq, Eq)]
pub enum Verdict {
    Committed,
    Aborted,
    Undecided,
}
