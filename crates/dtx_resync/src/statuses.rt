// What a target that opened again asks the others, and what they answer.
ghost use Rattle.std.specs.Prelude.{◌≡◌, ◌++◌, IfOk, OnOk, filter, map};
ghost use Rattle.dtx_base.specs.Leading.{is_led, is_open};
ghost use Rattle.world_base.specs.Statuses.{state_of, status_refusal, status_to, statuses_for, statuses_of};

use base_messages::message::{Message, Post, Posts};
use base_types::entry::{Entry, EntryState};
use base_types::epoch::TargetId;
use base_types::id::AttemptId;
use base_types::items::{Items, Memory};
use base_types::outcome::{Cause, Outcome};
use dtx_leader::opening::is_open;
use dtx_table::bits::other_members;
use dtx_table::led::led_by;
use dtx_table::posts::to_target;
use std::alloc::Global;

/// What a target answers of an attempt, by the entry that it holds.
pub fn state_of(entry: Option<Entry>) -> EntryState
    ensures { result ≡ state_of entry }
{
    match entry {
        None => EntryState::Absent,
        Some(entry) => {
            if entry.committed {
                EntryState::Committed
            } else {
                EntryState::Prepared
            }
        }
    }
}

/// The refusal that such an answer is: a member that holds nothing refuses, since the attempt isn't resolved; any other one
/// counts as Ok.
pub fn status_refusal(attempt: AttemptId, state: EntryState) -> Option<Outcome>
    ensures { result ≡ status_refusal attempt state }
{
    match state {
        EntryState::Prepared | EntryState::Committed => None,
        EntryState::Absent => Some(Outcome::Restart(Cause::Unresolved { by: attempt })),
    }
}

// A member is asked what it holds of an attempt.
fn status_to(inc: u64, attempt: AttemptId, member: TargetId) -> Post
    ensures { result ≡ status_to inc attempt member }
{
    to_target(member, Message::Status { attempt, inc })
}

// Each of these members is asked; this follows other messages.
fn push_each(
    posts: &mut Posts,
    inc: u64,
    attempt: AttemptId,
    members: &[TargetId],
) -> Result<(), Memory>
    ensures { OnOk result (posts.new ≡ posts.old ++ map (status_to inc attempt) members.now) }
{
    for member in members {
        posts.push(status_to(inc, attempt, *member))?;
    }
    Ok(())
}

// Every other member of an attempt is asked; this follows other messages.
fn push_statuses(alloc: Global, posts: &mut Posts, inc: u64, entry: &Entry) -> Result<(), Memory>
    ensures { OnOk result (posts.new ≡ posts.old ++ statuses_of inc entry.now) }
{
    let others = other_members(alloc, entry)?;
    push_each(posts, inc, entry.attempt, &others)
}

// Of each of these entries that isn't committed every other member is asked.
fn statuses_for(alloc: Global, inc: u64, led: &[Entry]) -> Result<Posts, Memory>
    ensures { IfOk result (λ posts. posts ≡ statuses_for inc (filter is_open led.now)) }
{
    let mut posts = Items::new(alloc);
    for entry in led {
        if is_open(alloc, entry)? {
            push_statuses(alloc, &mut posts, inc, entry)?;
        }
    }
    Ok(posts)
}

/// What a target of this number asks that has just opened, in this incarnation, over these entries: of each that it leads and that
/// isn't committed, every other member is asked what it holds, in the order of the entries and of the members' numbers.
pub fn opening_posts(
    alloc: Global,
    me: TargetId,
    inc: u64,
    entries: &[Entry],
) -> Result<Posts, Memory>
    ensures { IfOk result (λ posts. posts ≡ statuses_for inc (filter is_open (filter (is_led me) entries.now))) }
{
    let led = led_by(alloc, me, entries)?;
    statuses_for(alloc, inc, &led)
}
