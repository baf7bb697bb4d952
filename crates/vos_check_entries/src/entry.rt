// What is gathered of the tree of entries.
use base_types::entry::Entry;
use base_types::epoch::Epoch;
use base_types::id::AttemptId;

/// An entry, and how many nodes it lists.
#[derive(Clone, Copy)]
pub struct EntryRow {
    pub entry: Entry,
    pub listed: usize,
}

/// Of which attempt and epoch the nodes are that an entry may list.
#[derive(Clone, Copy)]
pub struct Lister {
    pub attempt: AttemptId,
    pub epoch: Epoch,
}
