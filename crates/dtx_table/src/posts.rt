// The messages that a leader sends.
ghost use Rattle.std.specs.Prelude.{◌≡◌, ◌++◌, [], ◌∷◌, false, map, All, Option, Some, IfOk, IfSome, OnOk};
ghost use Rattle.base_types.specs.Operations.{write_path};
ghost use Rattle.base_types.specs.Placement.{ClassFits};
ghost use Rattle.dtx_base.specs.Leading.{abort_to, commit_mark, ended, mark_with, prepare_to, to_target};

use crate::written::writes_at;
use base_messages::actor::ActorId;
use base_messages::message::{Message, Post, Posts};
use base_types::entry::Entry;
use base_types::epoch::{Epoch, TargetId};
use base_types::id::AttemptId;
use base_types::items::{Items, Memory};
use base_types::operation::MinorWrite;
use base_types::outcome::Outcome;
use std::alloc::Global;

/// A message to a target.
pub fn to_target(target: TargetId, message: Message) -> Post
    ensures { result ≡ to_target target message }
{
    Post {
        to: ActorId {
            client: false,
            number: u16::from(target),
        },
        message,
    }
}

/// What answers nothing.
pub fn none(alloc: Global) -> Posts
    ensures { result ≡ [] }
{
    Items::new(alloc)
}

/// One message.
pub fn one(alloc: Global, post: Post) -> Result<Posts, Memory>
    ensures { IfOk result (λ posts. posts ≡ post ∷ []) }
{
    let mut posts = Items::new(alloc);
    posts.push(post)?;
    Ok(posts)
}

/// The client that waits for an attempt's end, if one does, is told it.
pub fn ended(
    alloc: Global,
    client: Option<ActorId>,
    attempt: AttemptId,
    epoch: Epoch,
    outcome: Outcome,
) -> Result<Posts, Memory>
    ensures { IfOk result (λ posts. posts ≡ ended client attempt epoch outcome) }
{
    match client {
        None => Ok(Items::new(alloc)),
        Some(to) => one(
            alloc,
            Post {
                to,
                message: Message::Ended {
                    attempt,
                    ep: Some(epoch),
                    outcome,
                },
            },
        ),
    }
}

/// What all Prepares of an attempt share: its entry, the first epoch of its command, the number of
/// targets and the leader's incarnation.
#[derive(Clone, Copy)]
pub struct Asking {
    pub entry: Entry,
    pub first: Option<Epoch>,
    pub targets: u8,
    pub incarnation: u64,
}

// A member is asked to prepare the writes of its groups.
fn prepare_to(
    alloc: Global,
    asking: Asking,
    writes: &[MinorWrite],
    member: TargetId,
) -> Result<Post, Memory>
    requires { All (λ w. IfSome (write_path w.write).obj (λ o. ClassFits o.class asking.targets)) writes.now }
    ensures { IfOk result (λ post. post ≡ prepare_to asking.targets asking.incarnation asking.entry asking.first writes.now member) }
{
    let theirs = writes_at(alloc, writes, asking.targets, member)?;
    Ok(to_target(
        member,
        Message::Prepare {
            entry: asking.entry,
            first: asking.first,
            writes: theirs,
            inc: asking.incarnation,
        },
    ))
}

/// Each of these members is asked to prepare.
pub fn prepares(
    alloc: Global,
    asking: Asking,
    writes: &[MinorWrite],
    members: &[TargetId],
) -> Result<Posts, Memory>
    requires { All (λ w. IfSome (write_path w.write).obj (λ o. ClassFits o.class asking.targets)) writes.now }
    ensures { IfOk result (λ posts. posts ≡ map (prepare_to asking.targets asking.incarnation asking.entry asking.first writes.now) members.now) }
{
    let mut posts = Items::new(alloc);
    for member in members {
        posts.push(prepare_to(alloc, asking, writes, *member)?)?;
    }
    Ok(posts)
}

// A member is told that an attempt is aborted.
fn abort_to(
    alloc: Global,
    incarnation: u64,
    attempt: AttemptId,
    member: TargetId,
) -> Result<Post, Memory>
    ensures { IfOk result (λ post. post ≡ abort_to incarnation attempt member) }
{
    let mut marks = Items::new(alloc);
    marks.push((attempt, false))?;
    Ok(to_target(
        member,
        Message::Mark {
            inc: incarnation,
            marks,
        },
    ))
}

/// Each of these members is told that an attempt is aborted; this follows other messages.
pub fn push_aborts(
    alloc: Global,
    posts: &mut Posts,
    incarnation: u64,
    attempt: AttemptId,
    members: &[TargetId],
) -> Result<(), Memory>
    ensures { OnOk result (posts.new ≡ posts.old ++ map (abort_to incarnation attempt) members.now) }
{
    for member in members {
        posts.push(abort_to(alloc, incarnation, attempt, *member)?)?;
    }
    Ok(())
}

// Commits as a Mark lists them.
fn commit_marks(alloc: Global, attempts: &[AttemptId]) -> Result<Items<(AttemptId, bool)>, Memory>
    ensures { IfOk result (λ marks. marks ≡ map commit_mark attempts.now) }
{
    let mut marks = Items::new(alloc);
    for attempt in attempts {
        marks.push((*attempt, true))?;
    }
    Ok(marks)
}

/// One Mark that names all of these as committed follows other messages, if there are any.
pub fn push_commits(
    alloc: Global,
    posts: &mut Posts,
    incarnation: u64,
    member: TargetId,
    attempts: &[AttemptId],
) -> Result<(), Memory>
    ensures { OnOk result (posts.new ≡ posts.old ++ mark_with incarnation member attempts.now) }
{
    if attempts.is_empty() {
        return Ok(());
    }
    let marks = commit_marks(alloc, attempts)?;
    posts.push(to_target(
        member,
        Message::Mark {
            inc: incarnation,
            marks,
        },
    ))?;
    Ok(())
}
