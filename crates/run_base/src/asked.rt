// Which messages are without an answer.
ghost use Rattle.std.specs.Prelude.{◌≡◌, ◌≤◌, ◌<◌, ◌+◌, length, position, vec_capacity, vec_len, IfSome, OnOk, IfOk};
ghost use Rattle.world_base.specs.dtx_base.Leading.{attempts_of};
ghost use Rattle.run_base.specs.Letters.{kept_copy};
ghost use Rattle.world_base.specs.Letters.{asked_after, asked_with, is_answer_to, is_answerable, is_reply, same_actor, same_ask, same_ids, without_first};

use base_messages::actor::ActorId;
use base_messages::message::Message;
use base_types::id::AttemptId;
use base_types::items::{Items, Memory, TryCopy};
use daos_model::durable::is_same_attempt;
use world_base::letter::{Letter, Letters};

/// Whether a message is one that is answered.
pub fn is_answerable(message: &Message) -> bool
    ensures { result ≡ is_answerable message.now }
{
    matches!(
        message,
        Message::Fetch { .. }
            | Message::Commit { .. }
            | Message::Ask { .. }
            | Message::Snap { .. }
            | Message::Prune { .. }
            | Message::Prepare { .. }
            | Message::Mark { .. }
            | Message::Query { .. }
            | Message::Status { .. }
            | Message::Freeze { .. }
    )
}

// Whether two actors are one.
fn same_actor(one: ActorId, other: ActorId) -> bool
    ensures { result ≡ same_actor one other }
{
    one.client == other.client && one.number == other.number
}

// Whether these attempts are those of a Mark.
fn are_marked(attempts: &[AttemptId], marks: &[(AttemptId, bool)]) -> bool
    ensures { result ≡ same_ids attempts.now (attempts_of marks.now) }
{
    match (attempts.split_first(), marks.split_first()) {
        (None, None) => true,
        (Some((one, attempts)), Some((other, marks))) => {
            is_same_attempt(*one, other.0) && are_marked(attempts, marks)
        }
        _ => false,
    }
}

// Whether two Queries were sent for the same Fetch, or both for none.
fn same_ask(one: Option<AttemptId>, other: Option<AttemptId>) -> bool
    ensures { result ≡ same_ask one other }
{
    match (one, other) {
        (None, None) => true,
        (Some(one), Some(other)) => is_same_attempt(one, other),
        _ => false,
    }
}

/// Whether a message answers one that was asked.
pub fn is_reply(message: &Message, asked: &Message) -> bool
    ensures { result ≡ is_reply message.now asked.now }
{
    match (message, asked) {
        (
            Message::Fetched {
                attempt,
                op,
                group,
                ..
            },
            Message::Fetch {
                attempt: own,
                op: own_op,
                group: own_group,
                ..
            },
        ) => is_same_attempt(*attempt, *own) && *op == *own_op && *group == *own_group,
        (Message::Ended { attempt, .. }, Message::Commit { attempt: own, .. })
        | (Message::Ended { attempt, .. }, Message::Ask { attempt: own })
        | (Message::Ended { attempt, .. }, Message::Snap { attempt: own, .. })
        | (Message::Ended { attempt, .. }, Message::Prune { attempt: own, .. })
        | (Message::Held { attempt, .. }, Message::Freeze { attempt: own, .. })
        | (Message::Held { attempt, .. }, Message::Prune { attempt: own, .. }) => {
            is_same_attempt(*attempt, *own)
        }
        (
            Message::Ack { attempt, inc, .. },
            Message::Prepare {
                entry,
                inc: own_inc,
                ..
            },
        ) => { is_same_attempt(*attempt, entry.attempt) && *inc == *own_inc }
        (
            Message::Marked { inc, attempts },
            Message::Mark {
                inc: own_inc,
                marks,
            },
        ) => { *inc == *own_inc && are_marked(attempts.as_slice(), marks.as_slice()) }
        (
            Message::Verdict { attempt, ask, .. },
            Message::Query {
                attempt: own,
                ask: own_ask,
            },
        ) => { is_same_attempt(*attempt, *own) && same_ask(*ask, *own_ask) }
        (
            Message::StatusIs { attempt, inc, .. },
            Message::Status {
                attempt: own,
                inc: own_inc,
            },
        ) => is_same_attempt(*attempt, *own) && *inc == *own_inc,
        _ => false,
    }
}

/// Whether a letter is the answer to one that was asked.
#[tactic(auto, unfolding(world_base::specs::Letters::is_answer_to))]
pub fn is_answer_to(letter: &Letter, asked: &Letter) -> bool
    ensures { result ≡ is_answer_to letter.now asked.now }
{
    same_actor(letter.from, asked.to)
        && same_actor(letter.to, asked.from)
        && is_reply(&letter.message, &asked.message)
}

// The place of the first letter that this one answers, if there is one.
fn first_answered(letter: &Letter, asked: &[Letter]) -> Option<usize>
    ensures first { result ≡ position (is_answer_to letter.now) asked.now }
    ensures within { IfSome result (λ place. place < length asked.now) }
{
    asked.iter().position(|other| is_answer_to(letter, other))
}

// Takes out the first letter that this one answers, if there is one.
fn answer(asked: &mut Vec<Letter>, letter: &Letter)
    ensures left { asked.new.items ≡ without_first (is_answer_to letter.now) asked.old.items }
    ensures fewer { vec_len asked.new ≤ vec_len asked.old }
    ensures capacity { vec_capacity asked.new ≡ vec_capacity asked.old }
{
    if let Some(place) = first_answered(letter, asked) {
        asked.remove(place);
    }
}

/// The copy of a letter that is kept while it is without an answer, if it is one that is answered.
///
/// # Errors
///
/// For want of memory.
pub(crate) fn kept_copy(letter: &Letter) -> Result<Option<Letter>, Memory>
    ensures { IfOk result (λ copy. copy ≡ kept_copy letter.now) }
{
    if is_answerable(&letter.message) {
        Ok(Some(letter.copy()?))
    } else {
        Ok(None)
    }
}

// What is without an answer once a letter more was sent, of which this copy is kept: it is one, or the first
// that it answers isn't any more. There is room for one.
#[tactic(auto, unfolding(world_base::specs::Letters::asked_with))]
pub(crate) fn note(asked: &mut Vec<Letter>, letter: &Letter, copy: Option<Letter>)
    requires copy { copy ≡ kept_copy letter.now }
    requires room { vec_len asked.old < vec_capacity asked.old }
    ensures noted { asked.new.items ≡ asked_with asked.old.items letter.now }
    ensures one_more { vec_len asked.new ≤ vec_len asked.old + 1 }
    ensures capacity { vec_capacity asked.old ≤ vec_capacity asked.new }
{
    match copy {
        Some(copy) => asked.push(copy).unwrap(),
        None => answer(asked, letter),
    }
}

// The same, where a copy and room are still to be had.
fn ask(asked: &mut Vec<Letter>, letter: &Letter) -> Result<(), Memory>
    ensures { OnOk result (asked.new.items ≡ asked_with asked.old.items letter.now) }
{
    let copy = kept_copy(letter)?;
    asked.reserve(1)?;
    note(asked, letter, copy);
    Ok(())
}

// The same, for these letters, one after another.
fn ask_all(asked: &mut Vec<Letter>, sent: &[Letter]) -> Result<(), Memory>
    ensures { OnOk result (asked.new.items ≡ asked_after asked.old.items sent.now) }
{
    for letter in sent {
        ask(asked, letter)?;
    }
    Ok(())
}

/// What is without an answer once these letters were sent, one after another.
///
/// # Errors
///
/// For want of memory.
pub fn asked_after(asked: &Letters, sent: &[Letter]) -> Result<Letters, Memory>
    ensures { IfOk result (λ after. after ≡ asked_after asked.now sent.now) }
{
    let mut after = asked.copy()?.into_vec();
    ask_all(&mut after, sent)?;
    Ok(Items::from_vec(after))
}
