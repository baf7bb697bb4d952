// What a target remembers of the attempts that other targets lead, beside their entries in its store.
use base_messages::message::{Message, Messages, Posts};
use base_types::epoch::TargetId;
use base_types::id::AttemptId;
use base_types::items::Items;

/// A Fetch that waits until what became of an attempt is known, which another target leads.
#[derive(Drop)]
pub struct Parked {
    pub on: AttemptId,
    pub leader: TargetId,
    pub ask: Message,
}

/// What came of a Query that idle work sent: nothing yet, the answer that the attempt is undecided,
/// or that its leader is down.
#[derive(Clone, Copy)]
pub enum QueryState {
    Unanswered,
    Undecided,
    Down,
}

/// A Query that idle work sent for a prepared entry, and what came of it.
#[derive(Clone, Copy)]
pub struct Inquiry {
    pub attempt: AttemptId,
    pub state: QueryState,
}

/// Fetches that wait, in the order in which they were parked.
pub type ParkedFetches = Items<Parked>;

/// The Queries of idle work, at most one for each attempt.
pub type Inquiries = Items<Inquiry>;

/// What a member remembers until it stops: the Fetches that wait, in the order in which they were
/// parked, and the Queries that its idle work sent, in the order of attempts. For an attempt with
/// such a Query idle work sends no other.
#[derive(Drop)]
pub struct MemberMemory {
    pub parked: ParkedFetches,
    pub inquiries: Inquiries,
}

/// What a Verdict sets free: messages to send, and Fetches that are to be tried again, in the order
/// in which they were parked.
#[derive(Drop)]
pub struct Freed {
    pub posts: Posts,
    pub again: Messages,
}
