// Fetches that wait.
ghost use Rattle.std.specs.Prelude.{◌≡◌, ◌++◌, ◌+◌, ◌≤◌, filter, map, vec_len, vec_capacity, IfOk, OnOk, OnErr};
ghost use Rattle.dtx_base.specs.Joining.{all_unresolved_told, asker, is_asker, is_not_waiting, is_parked_elsewhere, is_parked_on, is_waiting, parked_ask, unresolved_told};

use base_messages::actor::ActorId;
use base_messages::message::{Message, Messages, Post, Posts, Reply};
use base_types::id::AttemptId;
use base_types::items::{Items, Memory};
use base_types::outcome::{Cause, Outcome};
use daos_model::durable::is_same_attempt;
use dtx_base::member::Parked;
use std::alloc::Global;

/// The attempt of a Fetch.
pub fn asker(ask: &Message) -> Option<AttemptId>
    ensures { result ≡ asker ask.now }
{
    match ask {
        Message::Fetch { attempt, .. } => Some(*attempt),
        _ => None,
    }
}

// Whether a message is a Fetch of this attempt.
fn is_asker(ask: &Message, attempt: AttemptId) -> bool
    ensures { result ≡ is_asker attempt ask.now }
{
    match ask {
        Message::Fetch { attempt: own, .. } => is_same_attempt(*own, attempt),
        _ => false,
    }
}

// Whether a Fetch of an attempt waits for another one.
#[tactic(auto, unfolding(dtx_base::specs::Joining::is_waiting))]
fn is_waiting(row: &Parked, on: AttemptId, attempt: AttemptId) -> bool
    ensures { result ≡ is_waiting on attempt row.now }
{
    is_same_attempt(row.on, on) && is_asker(&row.ask, attempt)
}

/// Takes the Fetches away that wait for an attempt, and gives them, in the order in which they were
/// parked. For want of memory none is taken away.
pub fn free(alloc: Global, rows: &mut Vec<Parked>, on: AttemptId) -> Result<Messages, Memory>
    ensures freed { IfOk result (λ again. again ≡ map parked_ask (filter (is_parked_on on) rows.old.items)) }
    ensures left { OnOk result (rows.new.items ≡ filter (is_parked_elsewhere on) rows.old.items) }
    ensures err { OnErr result (rows.new.items ≡ rows.old.items) }
{
    let mut again = Vec::with_capacity(alloc, rows.len())?;
    free_all(rows, on, &mut again);
    Ok(Items::from_vec(again))
}

// Moves the Fetches that wait for an attempt to the end of others, for which there is room.
fn free_all(rows: &mut Vec<Parked>, on: AttemptId, again: &mut Vec<Message>)
    requires { vec_len again.old + vec_len rows.old ≤ vec_capacity again.old }
    ensures freed { again.new.items ≡ again.old.items ++ map parked_ask (filter (is_parked_on on) rows.old.items) }
    ensures left { rows.new.items ≡ filter (is_parked_elsewhere on) rows.old.items }
{
    let mut i = 0;
    while i < rows.len() {
        if is_same_attempt(rows[i].on, on) {
            let row = rows.remove(i);
            again.push(row.ask).unwrap();
        } else {
            i += 1;
        }
    }
}

// The client of a Fetch is told that its attempt met one which isn't resolved.
fn tell_unresolved(posts: &mut Posts, on: AttemptId, ask: &Message) -> Result<(), Memory>
    ensures { OnOk result (posts.new ≡ posts.old ++ unresolved_told on ask.now) }
{
    if let Message::Fetch {
        attempt,
        op,
        group,
        ep,
        ..
    } = ask
    {
        posts.push(Post {
            to: ActorId {
                client: true,
                number: attempt.client,
            },
            message: Message::Fetched {
                attempt: *attempt,
                op: *op,
                group: *group,
                epoch: *ep,
                reply: Reply::Outcome(Outcome::Restart(Cause::Unresolved { by: on })),
            },
        })?;
    }
    Ok(())
}

/// What the Fetches of an attempt that wait for another one are answered where that isn't resolved.
pub fn unresolved_told(
    alloc: Global,
    rows: &[Parked],
    on: AttemptId,
    attempt: AttemptId,
) -> Result<Posts, Memory>
    ensures { IfOk result (λ posts. posts ≡ all_unresolved_told on (filter (is_waiting on attempt) rows.now)) }
{
    let mut posts = Items::new(alloc);
    for row in rows {
        if is_waiting(row, on, attempt) {
            tell_unresolved(&mut posts, on, &row.ask)?;
        }
    }
    Ok(posts)
}

/// Takes the Fetches of an attempt away that wait for another one.
pub fn drop_waiting(rows: &mut Vec<Parked>, on: AttemptId, attempt: AttemptId)
    ensures { rows.new.items ≡ filter (is_not_waiting on attempt) rows.old.items }
{
    let mut kept = 0;
    for i in 0..rows.len() {
        if !is_waiting(&rows[i], on, attempt) {
            rows.swap(kept, i);
            kept += 1;
        }
    }
    rows.truncate(kept);
}
