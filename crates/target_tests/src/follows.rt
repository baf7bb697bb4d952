// What follows from a turn, told by plain values.
use base_messages::actor::ActorId;
use base_messages::message::{Message, Reply};
use base_types::answer::Answer;
use base_types::entry::Verdict;
use base_types::id::AttemptId;
use world_base::did::Did;

/// What a message of the rows says: its kind, the client of its attempt, and numbers. Of a Prepare these are the epoch,
/// the leader, the members and the incarnation, of a Mark whether it tells of a commit and the incarnation, of an Ack or
/// a Marked the incarnation, of a Query the client of the attempt that asks, of a Verdict 0 for aborted, 1 for
/// committed and 2 for others, and of an answer of nothing its epoch. Anything else is `other`.
pub(crate) type Said = (&'static str, u16, [u64; 4]);

/// How many messages follow from a turn; and the first of them, with whom it goes to.
#[derive(Clone, Copy)]
pub(crate) struct Follows {
    count: usize,
    to: ActorId,
    said: Said,
}

const OTHER: Said = ("other", 0, [0; 4]);

// What a Mark of one attempt says.
fn said_by_mark(inc: u64, marks: &[(AttemptId, bool)]) -> Said {
    match marks {
        [(attempt, committed)] => ("mark", attempt.client, [u64::from(*committed), inc, 0, 0]),
        _ => OTHER,
    }
}

// What a Marked of one attempt says.
fn said_by_marked(inc: u64, attempts: &[AttemptId]) -> Said {
    match attempts {
        [attempt] => ("marked", attempt.client, [inc, 0, 0, 0]),
        _ => OTHER,
    }
}

// The number of a verdict.
fn number(verdict: Verdict) -> u64 {
    match verdict {
        Verdict::Aborted => 0,
        Verdict::Committed => 1,
        _ => 2,
    }
}

// What a message of a transaction's targets says.
fn said(message: &Message) -> Said {
    match message {
        Message::Prepare { entry, inc, .. } => {
            let numbers = [entry.epoch.0, u64::from(entry.leader), entry.members, *inc];
            ("prepare", entry.attempt.client, numbers)
        }
        Message::Ack {
            attempt,
            inc,
            refusal: None,
        } => ("ack", attempt.client, [*inc, 0, 0, 0]),
        Message::Mark { inc, marks } => said_by_mark(*inc, marks.as_slice()),
        Message::Marked { inc, attempts } => said_by_marked(*inc, attempts.as_slice()),
        Message::Query {
            attempt,
            ask: Some(ask),
        } => ("query", attempt.client, [u64::from(ask.client), 0, 0, 0]),
        Message::Verdict {
            attempt,
            verdict,
            ..
        } => ("verdict", attempt.client, [number(*verdict), 0, 0, 0]),
        Message::Fetched {
            attempt,
            epoch: Some(epoch),
            reply: Reply::Answer(Answer::Absent),
            ..
        } => ("absent", attempt.client, [epoch.0, 0, 0, 0]),
        _ => OTHER,
    }
}

impl Follows {
    /// What follows.
    pub(crate) fn of(did: &Did) -> Follows {
        let posts = did.posts.as_slice();
        match posts.first() {
            Some(post) => Follows {
                count: posts.len(),
                to: post.to,
                said: said(&post.message),
            },
            None => Follows {
                count: 0,
                to: ActorId {
                    client: false,
                    number: 0,
                },
                said: OTHER,
            },
        }
    }

    /// Whether nothing does.
    pub(crate) fn is_nothing(&self) -> bool {
        self.count == 0
    }

    /// Whether one message to an actor does, which says this.
    pub(crate) fn is(&self, to: ActorId, said: Said) -> bool {
        self.count == 1 && self.to == to && self.said == said
    }
}
