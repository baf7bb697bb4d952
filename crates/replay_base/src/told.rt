// What follows from a turn that answers one who asked, and the comparison with what is told.
ghost use Rattle.std.specs.Prelude.{◌≡◌, None, IfOk, Decides};
ghost use Rattle.replay_base.specs.Leaving.{IsLeft, IsLeftIf};
ghost use Rattle.replay_base.specs.Onward.{keeps};
ghost use Rattle.replay_base.specs.Requested.{SpentSo};
ghost use Rattle.world_base.specs.declared.did.Did.{Did};
ghost use Rattle.world_base.specs.declared.target.TargetMemory.{TargetMemory};
ghost use Rattle.world_base.specs.Requests as asked;

use crate::epochs::is_spent;
use crate::free::is_free;
use base_messages::actor::ActorId;
use base_messages::message::{Message, Post, Posts};
use base_types::epoch::Epoch;
use base_types::id::AttemptId;
use base_types::items::{Items, Memory};
use daos_model::durable::Durable;
use std::alloc::Global;
use world_base::did::Did;
use world_base::target::{TargetMemory, TargetPlan, TargetState};
use world_same::same::Same;

/// The epoch that was issued for a request that had none.
pub fn issued_for(attempt: AttemptId, ep: Option<Epoch>, epoch: Epoch) -> Option<(AttemptId, Epoch)>
    ensures { result ≡ asked.issued_for attempt ep epoch }
{
    match ep {
        None => Some((attempt, epoch)),
        Some(_own) => None,
    }
}

/// One message is what follows, and perhaps an epoch.
pub fn says(
    alloc: Global,
    to: ActorId,
    message: Message,
    issued: Option<(AttemptId, Epoch)>,
) -> Result<Did, Memory>
    ensures { IfOk result (λ did. did ≡ asked.says to message issued) }
{
    let mut posts = Items::new(alloc);
    posts.push(Post { to, message })?;
    Ok(Did {
        posts,
        lines: Items::new(alloc),
        issued,
    })
}

// Whether the same follows from two turns.
fn is_same_did(one: &Did, other: &Did) -> bool
    ensures { Decides result (one.now ≡ other.now) }
{
    one.posts.is_same(&other.posts)
        && one.lines.is_same(&other.lines)
        && one.issued.is_same(&other.issued)
}

/// Whether a turn left this in a target's memory, and this followed.
pub fn is_left(memory: &TargetMemory, did: &Did, expected: &TargetMemory, told: &Did) -> bool
    ensures { Decides result (◌≡◌ {A = TargetMemory × Did} (memory.now, did.now) (expected.now, told.now)) }
{
    memory.is_same(expected) && is_same_did(did, told)
}

// Whether a target keeps the same as before, and as many blocks are free.
fn is_kept(before: &TargetState, after: &TargetState) -> bool
    ensures { Decides result (keeps after.now.durable after.now.free ≡ keeps before.now.durable before.now.free) }
{
    after.durable.is_same(&before.durable) && after.free == before.free
}

/// Whether no ticks are left for a request without an epoch, so that a target stays as it was, and this
/// follows.
pub fn is_spent_so(
    plan: TargetPlan,
    tracker: Epoch,
    before: &TargetState,
    after: &TargetState,
    did: &Did,
    told: &Did,
) -> bool
    ensures { Decides result (SpentSo (λ reading. asked.request_epoch plan before.now.memory reading tracker None) (keeps before.now.durable before.now.free)
        (keeps after.now.durable after.now.free) (before.now.memory, told.now) (after.now.memory, did.now)) }
{
    is_spent(plan, &before.memory, tracker)
        && is_kept(before, after)
        && is_left(&after.memory, did, &before.memory, told)
}

/// These messages are what follows, and perhaps an epoch.
pub fn sends(alloc: Global, posts: Posts, issued: Option<(AttemptId, Epoch)>) -> Did
    ensures { result ≡ asked.sends posts issued }
{
    Did {
        posts,
        lines: Items::new(alloc),
        issued,
    }
}

/// What a turn leaves: what is kept, whether anything of that was changed, what is known, and what
/// follows.
#[derive(Drop)]
pub struct Left {
    pub durable: Durable,
    pub changed: bool,
    pub memory: TargetMemory,
    pub did: Did,
}

// Whether a target was left with this, and this followed.
fn is_left_so(left: &Left, before: &TargetState, after: &TargetState, did: &Did) -> bool
    ensures { Decides result (IsLeft left.now before.now.free (keeps after.now.durable after.now.free) (after.now.memory, did.now)) }
{
    after.durable.is_same(&left.durable)
        && is_free(left.changed, before.free, after.free)
        && is_left(&after.memory, did, &left.memory, &left.did)
}

/// Whether a turn left a target with this, and this followed, where it could go to its end.
pub fn is_left_if(left: &Option<Left>, before: &TargetState, after: &TargetState, did: &Did) -> bool
    ensures { Decides result (IsLeftIf left.now before.now.free (keeps after.now.durable after.now.free) (after.now.memory, did.now)) }
{
    match left {
        Some(left) => is_left_so(left, before, after, did),
        None => false,
    }
}
