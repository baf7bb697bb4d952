// A write below a later read, as tables. Client 0 reads x and writes a, which client 1 has read at a later epoch by
// then: its first attempt is refused, and its second one is committed. One target, thirteen turns in rounds.
use base_messages::actor::ActorId;
use base_types::id::AttemptId;
use world_list::events::EventKind;

/// How many turns there are.
pub(crate) const TURNS: usize = 13;

/// The attempts: the first of client 0, that of client 1, and the second of client 0.
pub(crate) enum Who {
    First,
    Reader,
    Again,
}

/// What a letter is of an attempt: its read, the answer to that, its commit, and its end.
pub(crate) enum Said {
    Fetch,
    Fetched,
    Commit,
    Ended,
}

/// A letter.
pub(crate) type Sent = (Said, Who);

/// An attempt: the first epoch that its command was issued, the epochs that its client has heard of before it, and
/// its own; and the name of the akey that it reads.
#[derive(Clone, Copy)]
pub(crate) struct Try {
    pub by: AttemptId,
    pub first: Option<u64>,
    pub tracker: u64,
    pub epoch: u64,
    pub name: u8,
}

/// What is told of the run: the epoch of client 1's read, whether that is answered that there is such a key, the
/// epoch of the read that refuses the write, the blocks that are free once the write is stored, and the turn that
/// is left out, from 1 on.
#[derive(Clone, Copy)]
pub(crate) struct Told {
    pub read: u64,
    pub yes: bool,
    pub cause: u64,
    pub free: u32,
    pub without: usize,
}

impl Told {
    /// An attempt, as it is told.
    pub(crate) fn attempt(&self, who: &Who) -> Try {
        let (client, attempt, first, tracker, epoch, name) = match who {
            Who::First => (0, 0, None, 0, 256, b'x'),
            Who::Reader => (1, 0, None, 0, self.read, b'a'),
            Who::Again => {
                let epoch = self.read.saturating_add(256);
                (0, 1, Some(256), self.cause, epoch, b'x')
            }
        };
        Try {
            by: AttemptId {
                client,
                command: 0,
                attempt,
            },
            first,
            tracker,
            epoch,
            name,
        }
    }
}

const CLIENT_0: ActorId = ActorId {
    client: true,
    number: 0,
};

const CLIENT_1: ActorId = ActorId {
    client: true,
    number: 1,
};

const TARGET: ActorId = ActorId {
    client: false,
    number: 0,
};

/// The kind of each turn, whose it is, and the letter that it hears.
pub(crate) const KINDS: [(EventKind, ActorId, Option<Sent>); TURNS] = [
    (EventKind::GoOn, CLIENT_0, None),
    (EventKind::GoOn, CLIENT_1, None),
    (EventKind::Hear, TARGET, Some((Said::Fetch, Who::First))),
    (EventKind::Hear, CLIENT_0, Some((Said::Fetched, Who::First))),
    (EventKind::Hear, TARGET, Some((Said::Fetch, Who::Reader))),
    (
        EventKind::Hear,
        CLIENT_1,
        Some((Said::Fetched, Who::Reader)),
    ),
    (EventKind::Hear, TARGET, Some((Said::Commit, Who::First))),
    (EventKind::Hear, CLIENT_0, Some((Said::Ended, Who::First))),
    (EventKind::Hear, TARGET, Some((Said::Fetch, Who::Again))),
    (EventKind::Hear, CLIENT_0, Some((Said::Fetched, Who::Again))),
    (EventKind::Hear, TARGET, Some((Said::Commit, Who::Again))),
    (EventKind::Hear, CLIENT_0, Some((Said::Ended, Who::Again))),
    (EventKind::Idle, TARGET, None),
];

/// The letters in flight after each turn, from the start on.
pub(crate) const IN_FLIGHT: [&[Sent]; 14] = [
    &[],
    &[(Said::Fetch, Who::First)],
    &[(Said::Fetch, Who::First), (Said::Fetch, Who::Reader)],
    &[(Said::Fetch, Who::Reader), (Said::Fetched, Who::First)],
    &[(Said::Fetch, Who::Reader), (Said::Commit, Who::First)],
    &[(Said::Commit, Who::First), (Said::Fetched, Who::Reader)],
    &[(Said::Commit, Who::First)],
    &[(Said::Ended, Who::First)],
    &[(Said::Fetch, Who::Again)],
    &[(Said::Fetched, Who::Again)],
    &[(Said::Commit, Who::Again)],
    &[(Said::Ended, Who::Again)],
    &[],
    &[],
];

/// Those that are without an answer.
pub(crate) const UNANSWERED: [&[Sent]; 14] = [
    &[],
    &[(Said::Fetch, Who::First)],
    &[(Said::Fetch, Who::First), (Said::Fetch, Who::Reader)],
    &[(Said::Fetch, Who::Reader)],
    &[(Said::Fetch, Who::Reader), (Said::Commit, Who::First)],
    &[(Said::Commit, Who::First)],
    &[(Said::Commit, Who::First)],
    &[],
    &[(Said::Fetch, Who::Again)],
    &[],
    &[(Said::Commit, Who::Again)],
    &[],
    &[],
    &[],
];

/// The attempts whose reads are served, in order, and at which turns.
pub(crate) const SERVED: [(Who, usize); 3] = [(Who::First, 3), (Who::Reader, 5), (Who::Again, 9)];

/// The attempts that end, in order, and at which turns.
pub(crate) const ENDS: [(Who, usize); 3] = [(Who::Reader, 6), (Who::First, 8), (Who::Again, 12)];

/// How far a client came: it waits for its read, or for its end, or its commands are over.
pub(crate) enum Came {
    Nowhere,
    Reads(Who),
    Commits(Who),
    Over(Who),
}

/// How far client 0 came, from which turn on.
pub(crate) const FIRST: [(Came, usize); 6] = [
    (Came::Nowhere, 0),
    (Came::Reads(Who::First), 1),
    (Came::Commits(Who::First), 4),
    (Came::Reads(Who::Again), 8),
    (Came::Commits(Who::Again), 10),
    (Came::Over(Who::Again), 12),
];

/// How far client 1 came.
pub(crate) const SECOND: [(Came, usize); 3] = [
    (Came::Nowhere, 0),
    (Came::Reads(Who::Reader), 2),
    (Came::Over(Who::Reader), 6),
];

/// The turn from which on the write is stored, and that from which on it is settled.
pub(crate) const STORED: usize = 11;

pub(crate) const SETTLED: usize = 13;
