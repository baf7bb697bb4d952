// Whether two messages are the same.
ghost use Rattle.std.specs.Prelude.{◌≡◌, Decides};

use crate::same::Same;
use base_messages::actor::ActorId;
use base_messages::message::{Message, Post, Reply};
use base_types::entry::{EntryState, Verdict};

impl Same for ActorId {
    fn is_same(&self, other: &ActorId) -> bool {
        *self == *other
    }
}

impl Same for EntryState {
    fn is_same(&self, other: &EntryState) -> bool {
        match (self, other) {
            (EntryState::Prepared, EntryState::Prepared) => true,
            (EntryState::Committed, EntryState::Committed) => true,
            (EntryState::Absent, EntryState::Absent) => true,
            _ => false,
        }
    }
}

impl Same for Verdict {
    fn is_same(&self, other: &Verdict) -> bool {
        match (self, other) {
            (Verdict::Committed, Verdict::Committed) => true,
            (Verdict::Aborted, Verdict::Aborted) => true,
            (Verdict::Undecided, Verdict::Undecided) => true,
            _ => false,
        }
    }
}

impl Same for Reply {
    fn is_same(&self, other: &Reply) -> bool {
        match (self, other) {
            (Reply::Answer(one), Reply::Answer(two)) => one.is_same(two),
            (Reply::Outcome(one), Reply::Outcome(two)) => one.is_same(two),
            _ => false,
        }
    }
}

/// Whether two messages are the same.
pub fn same_message(one: &Message, two: &Message) -> bool
    ensures { Decides result (one.now ≡ two.now) }
{
    match (one, two) {
        (
            Message::Fetch {
                attempt,
                op,
                group,
                ep,
                first,
                tracker,
                read,
                snapshot,
            },
            Message::Fetch {
                attempt: other_attempt,
                op: other_op,
                group: other_group,
                ep: other_ep,
                first: other_first,
                tracker: other_tracker,
                read: other_read,
                snapshot: other_snapshot,
            },
        ) => attempt.is_same(other_attempt)
            && op.is_same(other_op)
            && group.is_same(other_group)
            && ep.is_same(other_ep)
            && first.is_same(other_first)
            && tracker.is_same(other_tracker)
            && read.is_same(other_read)
            && snapshot.is_same(other_snapshot),
        (
            Message::Fetched {
                attempt,
                op,
                group,
                epoch,
                reply,
            },
            Message::Fetched {
                attempt: other_attempt,
                op: other_op,
                group: other_group,
                epoch: other_epoch,
                reply: other_reply,
            },
        ) => attempt.is_same(other_attempt)
            && op.is_same(other_op)
            && group.is_same(other_group)
            && epoch.is_same(other_epoch)
            && reply.is_same(other_reply),
        (
            Message::Commit {
                attempt,
                ep,
                first,
                tracker,
                writes,
            },
            Message::Commit {
                attempt: other_attempt,
                ep: other_ep,
                first: other_first,
                tracker: other_tracker,
                writes: other_writes,
            },
        ) => attempt.is_same(other_attempt)
            && ep.is_same(other_ep)
            && first.is_same(other_first)
            && tracker.is_same(other_tracker)
            && writes.is_same(other_writes),
        (
            Message::Ask { attempt },
            Message::Ask {
                attempt: other_attempt,
            },
        ) => attempt.is_same(other_attempt),
        (
            Message::Snap {
                attempt,
                cont,
                name,
                tracker,
            },
            Message::Snap {
                attempt: other_attempt,
                cont: other_cont,
                name: other_name,
                tracker: other_tracker,
            },
        ) => attempt.is_same(other_attempt)
            && cont.is_same(other_cont)
            && name.is_same(other_name)
            && tracker.is_same(other_tracker),
        (
            Message::Prune {
                attempt,
                cont,
                tracker,
                epoch,
            },
            Message::Prune {
                attempt: other_attempt,
                cont: other_cont,
                tracker: other_tracker,
                epoch: other_epoch,
            },
        ) => attempt.is_same(other_attempt)
            && cont.is_same(other_cont)
            && tracker.is_same(other_tracker)
            && epoch.is_same(other_epoch),
        (
            Message::Ended {
                attempt,
                ep,
                outcome,
            },
            Message::Ended {
                attempt: other_attempt,
                ep: other_ep,
                outcome: other_outcome,
            },
        ) => attempt.is_same(other_attempt)
            && ep.is_same(other_ep)
            && outcome.is_same(other_outcome),
        (
            Message::Tell { tracker },
            Message::Tell {
                tracker: other_tracker,
            },
        ) => tracker.is_same(other_tracker),
        (
            Message::Prepare {
                entry,
                first,
                writes,
                inc,
            },
            Message::Prepare {
                entry: other_entry,
                first: other_first,
                writes: other_writes,
                inc: other_inc,
            },
        ) => entry.is_same(other_entry)
            && first.is_same(other_first)
            && writes.is_same(other_writes)
            && inc.is_same(other_inc),
        (
            Message::Ack {
                attempt,
                inc,
                refusal,
            },
            Message::Ack {
                attempt: other_attempt,
                inc: other_inc,
                refusal: other_refusal,
            },
        ) => attempt.is_same(other_attempt)
            && inc.is_same(other_inc)
            && refusal.is_same(other_refusal),
        (
            Message::Mark { inc, marks },
            Message::Mark {
                inc: other_inc,
                marks: other_marks,
            },
        ) => inc.is_same(other_inc) && marks.is_same(other_marks),
        (
            Message::Marked { inc, attempts },
            Message::Marked {
                inc: other_inc,
                attempts: other_attempts,
            },
        ) => inc.is_same(other_inc) && attempts.is_same(other_attempts),
        (
            Message::Query { attempt, ask },
            Message::Query {
                attempt: other_attempt,
                ask: other_ask,
            },
        ) => attempt.is_same(other_attempt) && ask.is_same(other_ask),
        (
            Message::Verdict {
                attempt,
                ask,
                inc,
                verdict,
            },
            Message::Verdict {
                attempt: other_attempt,
                ask: other_ask,
                inc: other_inc,
                verdict: other_verdict,
            },
        ) => attempt.is_same(other_attempt)
            && ask.is_same(other_ask)
            && inc.is_same(other_inc)
            && verdict.is_same(other_verdict),
        (
            Message::Status { attempt, inc },
            Message::Status {
                attempt: other_attempt,
                inc: other_inc,
            },
        ) => attempt.is_same(other_attempt) && inc.is_same(other_inc),
        (
            Message::StatusIs {
                attempt,
                inc,
                state,
            },
            Message::StatusIs {
                attempt: other_attempt,
                inc: other_inc,
                state: other_state,
            },
        ) => attempt.is_same(other_attempt) && inc.is_same(other_inc) && state.is_same(other_state),
        (
            Message::Freeze {
                attempt,
                cont,
                epoch,
            },
            Message::Freeze {
                attempt: other_attempt,
                cont: other_cont,
                epoch: other_epoch,
            },
        ) => attempt.is_same(other_attempt)
            && cont.is_same(other_cont)
            && epoch.is_same(other_epoch),
        (
            Message::Held { attempt, refusal },
            Message::Held {
                attempt: other_attempt,
                refusal: other_refusal,
            },
        ) => attempt.is_same(other_attempt) && refusal.is_same(other_refusal),
        (
            Message::Reset {
                target,
                down,
                message,
            },
            Message::Reset {
                target: other_target,
                down: other_down,
                message: other_message,
            },
        ) => target.is_same(other_target)
            && down.is_same(other_down)
            && same_message(message.get(), other_message.get()),
        _ => false,
    }
}

impl Same for Message {
    fn is_same(&self, other: &Message) -> bool {
        same_message(self, other)
    }
}

impl Same for Post {
    fn is_same(&self, other: &Post) -> bool {
        self.to.is_same(&other.to) && self.message.is_same(&other.message)
    }
}
