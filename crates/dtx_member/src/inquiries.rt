// Queries that idle work sends.
ghost use Rattle.std.specs.Prelude.{◌≡◌, ◌+◌, ◌≤◌, filter, length, map, vec_len, vec_capacity, IfOk};
ghost use Rattle.std.specs.List.{list_any};
ghost use Rattle.dtx_base.specs.Joining.{inquiries_reset, inquiry_at, inquiry_for, is_to_inquire, with_inquiries_for};
ghost use Rattle.dtx_base.specs.Leading.{to_target};

use base_messages::actor::ActorId;
use base_messages::message::{Message, Post, Posts};
use base_types::entry::Entry;
use base_types::epoch::TargetId;
use base_types::id::AttemptId;
use base_types::items::{Items, Memory};
use daos_model::durable::is_same_attempt;
use dtx_base::member::{Inquiry, QueryState};
use dtx_table::rows::{find, put, remove};
use std::alloc::Global;

/// A message to a target.
pub fn to_target(target: TargetId, message: Message) -> Post
    ensures { result ≡ to_target target message }
{
    Post {
        to: ActorId {
            client: false,
            number: u16::from(target),
        },
        message,
    }
}

fn set_among(rows: &mut [Inquiry], attempt: AttemptId, state: QueryState)
    ensures { rows.new ≡ map (inquiry_at attempt state) rows.old }
{
    for row in rows.iter_mut() {
        if is_same_attempt(row.attempt, attempt) {
            row.state = state;
        }
    }
}

/// The Query of idle work for an attempt got this far.
pub fn set(rows: &mut Vec<Inquiry>, attempt: AttemptId, state: QueryState)
    ensures { rows.new.items ≡ map (inquiry_at attempt state) rows.old.items }
{
    set_among(rows, attempt, state)
}

/// The Query of idle work for an attempt got a Reset.
pub fn reset(rows: &mut Vec<Inquiry>, attempt: AttemptId, down: bool)
    ensures { rows.new.items ≡ inquiries_reset down attempt rows.old.items }
{
    if down {
        set(rows, attempt, QueryState::Down);
    } else {
        remove(rows, attempt);
    }
}

// Whether an entry is prepared, led by another target, and idle work sent no Query for it.
#[tactic(auto, unfolding(dtx_base::specs::Joining::is_to_inquire))]
fn is_to_inquire(entry: &Entry, me: TargetId, rows: &[Inquiry]) -> bool
    ensures { result ≡ is_to_inquire me rows.now entry.now }
{
    !entry.committed && entry.leader != me && find(rows, entry.attempt).is_none()
}

/// Whether a Query is to be sent for one of these entries.
pub fn is_due(entries: &[Entry], me: TargetId, rows: &[Inquiry]) -> bool
    ensures { result ≡ list_any (is_to_inquire me rows.now) entries.now }
{
    for entry in entries {
        if is_to_inquire(entry, me, rows) {
            return true;
        }
    }
    false
}

/// The entries for which Queries are to be sent, in their order.
pub fn to_inquire(
    alloc: Global,
    entries: &[Entry],
    me: TargetId,
    rows: &[Inquiry],
) -> Result<Vec<Entry>, Memory>
    ensures { IfOk result (λ asked. asked.items ≡ filter (is_to_inquire me rows.now) entries.now) }
{
    let mut asked = Vec::new(alloc);
    for entry in entries {
        if is_to_inquire(entry, me, rows) {
            asked.push(*entry)?;
        }
    }
    Ok(asked)
}

/// A Query for each of these entries, to its leader.
pub fn queries(alloc: Global, entries: &[Entry]) -> Result<Posts, Memory>
    ensures { IfOk result (λ posts. posts ≡ map inquiry_for entries.now) }
{
    let mut posts = Items::new(alloc);
    for entry in entries {
        posts.push(to_target(
            entry.leader,
            Message::Query {
                attempt: entry.attempt,
                ask: None,
            },
        ))?;
    }
    Ok(posts)
}

/// A Query was sent for each of these entries; there is room for that.
pub fn put_all(rows: &mut Vec<Inquiry>, entries: &[Entry])
    requires { vec_len rows.old + length entries.now ≤ vec_capacity rows.old }
    ensures { rows.new.items ≡ with_inquiries_for entries.now rows.old.items }
{
    for entry in entries {
        put(
            rows,
            Inquiry {
                attempt: entry.attempt,
                state: QueryState::Unanswered,
            },
        );
    }
}
