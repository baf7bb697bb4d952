// What a target remembers of the attempts that it leads, beside their entries in its store.
use base_messages::actor::ActorId;
use base_messages::message::AttemptIds;
use base_types::epoch::TargetId;
use base_types::id::AttemptId;
use base_types::items::Items;

/// An attempt that isn't decided: the client that waits for its end, if one does, and the members
/// whose Ok was counted, one bit for each target from the lowest on.
#[derive(Clone, Copy)]
pub struct Undecided {
    pub attempt: AttemptId,
    pub client: Option<ActorId>,
    pub counted: u64,
}

/// An attempt that a Mark names which is without an answer: the member that the Mark went to, and
/// the incarnation that it bears.
#[derive(Clone, Copy)]
pub struct Naming {
    pub member: TargetId,
    pub inc: u64,
    pub attempt: AttemptId,
}

/// Attempts that aren't decided.
pub type Undecideds = Items<Undecided>;

/// What the Marks name that are without an answer, in the order of sending.
pub type Namings = Items<Naming>;

/// What a leader remembers until it stops: the attempts that it hasn't decided, and those that it
/// has decided and not settled yet, both in the order of attempts; what the Marks name that are
/// without an answer; and the targets that it knows to be down, one bit for each.
#[derive(Drop)]
pub struct LeaderMemory {
    pub undecided: Undecideds,
    pub decided: AttemptIds,
    pub named: Namings,
    pub down: u64,
}
