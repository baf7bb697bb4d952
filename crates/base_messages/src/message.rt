// The messages between clients and targets.
ghost use Rattle.std.specs.Prelude.{◌≡◌, IfOk};

use crate::actor::ActorId;
use crate::boxed::Boxed;
use base_types::answer::Answer;
use base_types::entry::{Entry, EntryState, Verdict};
use base_types::epoch::{Epoch, TargetId};
use base_types::id::{AttemptId, ContId};
use base_types::items::{Items, Memory, TryCopy};
use base_types::key::Key;
use base_types::operation::{MinorWrites, Read};
use base_types::outcome::Outcome;

/// What a read got: its answer, or how its attempt ended instead.
#[derive(Drop)]
pub enum Reply {
    Answer(Answer),
    Outcome(Outcome),
}

impl Reply {
    /// The same reply again.
    pub fn copy(&self) -> Result<Reply, Memory>
        ensures { IfOk result (λ reply. reply ≡ self.now) }
    {
        match self {
            Reply::Answer(answer) => Ok(Reply::Answer(answer.copy()?)),
            Reply::Outcome(outcome) => Ok(Reply::Outcome(outcome.copy()?)),
        }
    }
}

/// Attempts, and whether each is committed or else aborted.
pub type Marks = Items<(AttemptId, bool)>;

/// Attempts.
pub type AttemptIds = Items<AttemptId>;

/// A message. In its fields `ep` is the epoch of the attempt, where one was issued; `first` the
/// first epoch issued to its command that its client heard of; `tracker` the greatest epoch that
/// the sender heard of; `inc` the leader's incarnation; `ask` the attempt whose Fetch a Query was
/// sent for; `refusal` the outcome that was met, or none where all is well.
#[derive(Drop)]
pub enum Message {
    /// A client asks a target to read a group's part of an operation's path.
    Fetch {
        attempt: AttemptId,
        op: u8,
        group: u8,
        ep: Option<Epoch>,
        first: Option<Epoch>,
        tracker: Epoch,
        read: Read,
        snapshot: bool,
    },
    /// A target answers a Fetch.
    Fetched {
        attempt: AttemptId,
        op: u8,
        group: u8,
        epoch: Option<Epoch>,
        reply: Reply,
    },
    /// A client hands an attempt's writes to their leader.
    Commit {
        attempt: AttemptId,
        ep: Option<Epoch>,
        first: Option<Epoch>,
        tracker: Epoch,
        writes: MinorWrites,
    },
    /// A client asks a leader what became of an attempt.
    Ask {
        attempt: AttemptId,
    },
    /// A client asks target 0 for a snapshot.
    Snap {
        attempt: AttemptId,
        cont: ContId,
        name: Key,
        tracker: Epoch,
    },
    /// A client, which tells its tracker, asks target 0 to aggregate; target 0 asks the others to,
    /// and tells them the epoch.
    Prune {
        attempt: AttemptId,
        cont: ContId,
        tracker: Option<Epoch>,
        epoch: Option<Epoch>,
    },
    /// A target tells a client how an attempt ended.
    Ended {
        attempt: AttemptId,
        ep: Option<Epoch>,
        outcome: Outcome,
    },
    /// A client tells another its tracker.
    Tell {
        tracker: Epoch,
    },
    /// A leader asks a member to prepare an attempt with the writes of that member's groups.
    Prepare {
        entry: Entry,
        first: Option<Epoch>,
        writes: MinorWrites,
        inc: u64,
    },
    /// A member answers a Prepare.
    Ack {
        attempt: AttemptId,
        inc: u64,
        refusal: Option<Outcome>,
    },
    /// A leader tells a member what became of attempts.
    Mark {
        inc: u64,
        marks: Marks,
    },
    /// A member has settled the attempts of a Mark.
    Marked {
        inc: u64,
        attempts: AttemptIds,
    },
    /// A member asks a leader what became of an attempt.
    Query {
        attempt: AttemptId,
        ask: Option<AttemptId>,
    },
    /// A leader answers a Query.
    Verdict {
        attempt: AttemptId,
        ask: Option<AttemptId>,
        inc: u64,
        verdict: Verdict,
    },
    /// A leader that opened again asks a member what it holds of an attempt.
    Status {
        attempt: AttemptId,
        inc: u64,
    },
    /// A member answers a Status.
    StatusIs {
        attempt: AttemptId,
        inc: u64,
        state: EntryState,
    },
    /// Target 0 asks a target to freeze a snapshot.
    Freeze {
        attempt: AttemptId,
        cont: ContId,
        epoch: Epoch,
    },
    /// A target has frozen, or pruned.
    Held {
        attempt: AttemptId,
        refusal: Option<Outcome>,
    },
    /// A message to a target got no answer, since that target stopped or is down.
    Reset {
        target: TargetId,
        down: bool,
        message: Boxed<Message>,
    },
}

// A match that makes each of the variants named again: the fields before the semicolon are copied
// as they stand, those behind it take memory.
macro_rules! made_again {
    ($message:expr; $($name:ident { $($plain:ident),*; $($deep:ident),* })*) => {
        match $message {
            $(Message::$name { $($plain,)* $($deep,)* } => Ok(Message::$name {
                $($plain: *$plain,)*
                $($deep: $deep.copy()?,)*
            }),)*
            Message::Reset { target, down, message } => Ok(Message::Reset {
                target: *target,
                down: *down,
                message: Boxed::new(message.allocator(), message.get().copy()?)?,
            }),
        }
    };
}

impl Message {
    /// The same message again.
    pub fn copy(&self) -> Result<Message, Memory>
        ensures { IfOk result (λ message. message ≡ self.now) }
    {
        made_again!(self;
            Fetch { attempt, op, group, ep, first, tracker, snapshot; read }
            Fetched { attempt, op, group, epoch; reply }
            Commit { attempt, ep, first, tracker; writes }
            Ask { attempt; }
            Snap { attempt, cont, tracker; name }
            Prune { attempt, cont, tracker, epoch; }
            Ended { attempt, ep; outcome }
            Tell { tracker; }
            Prepare { entry, first, inc; writes }
            Ack { attempt, inc; refusal }
            Mark { inc; marks }
            Marked { inc; attempts }
            Query { attempt, ask; }
            Verdict { attempt, ask, inc, verdict; }
            Status { attempt, inc; }
            StatusIs { attempt, inc, state; }
            Freeze { attempt, cont, epoch; }
            Held { attempt; refusal }
        )
    }
}

impl TryCopy for Message {
    fn copy(&self) -> Result<Message, Memory> {
        Message::copy(self)
    }
}

/// Messages, in the order in which they came.
pub type Messages = Items<Message>;

/// A message to an actor.
#[derive(Drop)]
pub struct Post {
    pub to: ActorId,
    pub message: Message,
}

/// Messages to actors, in the order in which they are sent.
pub type Posts = Items<Post>;
