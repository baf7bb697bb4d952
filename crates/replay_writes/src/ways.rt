// How a target ends a turn in which it checks writes, and stores them, once the lease covers their epoch: its
// ways, by the outcome that is told.
ghost use Rattle.std.specs.Prelude.{◌≡◌, ◌&&◌, Some, IfOk, Decides};
ghost use Rattle.std.specs.Option.{option_copied};
ghost use Rattle.base_types.specs.declared.outcome.Outcome.TheVariants as outcome;
ghost use Rattle.daos_model.specs.Forms.{AreWritesInForm};
ghost use Rattle.replay_base.specs.Onward.{FreeAfter};
ghost use Rattle.replay_writes.specs.Ways.{EndsAs, LacksSpaceSo, RefusesSo, StoresFree, StoresSo, ended_of, is_no_space, outcome_of, refusal_told, restart_of};
ghost use Rattle.world_base.specs.declared.did.Did.{Did};
ghost use Rattle.world_base.specs.declared.target.TargetMemory.{TargetMemory};
ghost use Rattle.world_base.specs.Commits as commit;
ghost use Rattle.world_base.specs.Requests as asked;

use crate::checks::{is_allowed, is_refused_by};
use crate::stored::prepared;
use base_messages::actor::ActorId;
use base_messages::message::{Message, Post};
use base_types::entry::Entry;
use base_types::epoch::{Epoch, TargetId};
use base_types::id::AttemptId;
use base_types::items::Memory;
use base_types::operation::MinorWrite;
use base_types::outcome::{Cause, Outcome};
use daos_model::accounts::blocks;
use daos_model::durable::Durable;
use dtx_table::posts::{one, to_target};
use replay_base::free::is_free;
use replay_base::leases::Covered;
use replay_base::memories::copy_memory;
use replay_base::told::{is_left, says, sends};
use std::alloc::Global;
use world_base::did::Did;
use world_base::target::{TargetMemory, TargetPlan, TargetState};
use world_same::same::Same;

/// Who is told how it ends: the client whose attempt it is, or the attempt's leader.
#[derive(Clone, Copy)]
pub enum Tells {
    Client {
        to: ActorId,
        attempt: AttemptId,
        epoch: Epoch,
        issued: Option<(AttemptId, Epoch)>,
    },
    Leader {
        leader: TargetId,
        attempt: AttemptId,
        inc: u64,
    },
}

/// What writes are to be stored for: the first epoch of the command, the entry, and who is told.
#[derive(Clone, Copy)]
pub struct Storing {
    pub first: Option<Epoch>,
    pub entry: Entry,
    pub tells: Tells,
}

// How it ended, as a message tells it.
fn ended_of(message: &Message) -> Option<&Outcome>
    ensures { option_copied result ≡ ended_of message.now }
{
    match message {
        Message::Ended { outcome, .. } => Some(outcome),
        Message::Ack { refusal, .. } => refusal.as_ref(),
        _ => None,
    }
}

// How it ended, as it is told by what is sent.
fn outcome_of(posts: &[Post]) -> Option<&Outcome>
    ensures { option_copied result ≡ outcome_of posts.now }
{
    if posts.is_empty() {
        return None;
    }
    ended_of(&posts[0].message)
}

// What is told of a refusal.
fn refusal_told(alloc: Global, tells: Tells, outcome: Outcome) -> Result<Did, Memory>
    ensures { IfOk result (λ did. did ≡ refusal_told tells outcome) }
{
    match tells {
        Tells::Client {
            to,
            attempt,
            epoch,
            issued,
        } => {
            let message = Message::Ended {
                attempt,
                ep: Some(epoch),
                outcome,
            };
            says(alloc, to, message, issued)
        }
        Tells::Leader {
            leader,
            attempt,
            inc,
        } => {
            let message = Message::Ack {
                attempt,
                inc,
                refusal: Some(outcome),
            };
            let posts = one(alloc, to_target(leader, message))?;
            Ok(sends(alloc, posts, None))
        }
    }
}

/// What a target knows once it heard of an epoch.
pub fn with_ticks(
    alloc: Global,
    memory: &TargetMemory,
    epoch: Epoch,
) -> Result<TargetMemory, Memory>
    ensures { IfOk result (λ after. after ≡ asked.with_ticks epoch memory.now) }
{
    let memory = copy_memory(alloc, memory)?;
    let ticks = memory.ticks.max(epoch.ticks());
    Ok(TargetMemory { ticks, ..memory })
}

// Whether both hold.
fn both(one: bool, other: bool) -> bool
    ensures { result ≡ (one && other) }
{
    one && other
}

// Whether a target keeps what it did once the lease covered the epoch, and was left with this, and this
// followed.
fn is_left_with(
    before: &TargetState,
    after: &TargetState,
    did: &Did,
    start: &Covered,
    memory: &TargetMemory,
    told: &Did,
) -> bool
    ensures { Decides result ((after.now.durable ≡ start.now.durable) × (FreeAfter start.now.changed before.now.free after.now.free × (◌≡◌ {A = TargetMemory × Did} (after.now.memory, did.now) (memory.now, told.now)))) }
{
    after.durable.is_same(&start.durable)
        && is_free(start.changed, before.free, after.free)
        && is_left(&after.memory, did, memory, told)
}

// Whether the writes are refused so for this cause.
fn refuses_so(
    alloc: Global,
    plan: TargetPlan,
    storing: Storing,
    writes: &[MinorWrite],
    start: &Covered,
    before: &TargetState,
    after: &TargetState,
    did: &Did,
    cause: &Cause,
) -> Result<bool, Memory>
    ensures { IfOk result (λ yes. Decides yes (RefusesSo plan storing writes.now start.now before.now after.now did.now cause.now)) }
{
    let epoch = storing.entry.epoch;
    let told = refusal_told(alloc, storing.tells, Outcome::Restart(cause.copy()?))?;
    let memory = with_ticks(alloc, &before.memory, epoch)?;
    let stamps = before.memory.stamps.as_slice();
    let refused = is_refused_by(
        plan,
        before.opening,
        storing.first,
        epoch,
        &start.durable,
        stamps,
        writes,
        cause,
    )?;
    let left = is_left_with(before, after, did, start, &memory, &told);
    Ok(both(refused, left))
}

// Whether the writes are allowed.
fn allows(
    plan: TargetPlan,
    storing: Storing,
    writes: &[MinorWrite],
    start: &Covered,
    before: &TargetState,
) -> Result<bool, Memory>
    ensures { IfOk result (λ yes. Decides yes (commit.IsAllowed plan before.now.opening storing.first storing.entry.epoch start.now.durable before.now.memory.stamps writes.now)) }
{
    is_allowed(
        plan,
        before.opening,
        storing.first,
        storing.entry.epoch,
        &start.durable,
        before.memory.stamps.as_slice(),
        writes,
    )
}

// Whether they are allowed, and there is no space for them.
fn lacks_space_so(
    alloc: Global,
    plan: TargetPlan,
    storing: Storing,
    writes: &[MinorWrite],
    start: &Covered,
    before: &TargetState,
    after: &TargetState,
    did: &Did,
) -> Result<bool, Memory>
    requires { AreWritesInForm writes.now }
    ensures { IfOk result (λ yes. Decides yes (LacksSpaceSo plan storing writes.now start.now before.now after.now did.now)) }
{
    let need = blocks(writes);
    let outcome = no_space(plan.me, need, after.free);
    let told = refusal_told(alloc, storing.tells, outcome)?;
    let memory = with_ticks(alloc, &before.memory, storing.entry.epoch)?;
    let allowed = allows(plan, storing, writes, start, before)?;
    let left = is_left_with(before, after, did, start, &memory, &told);
    Ok(both(both(allowed, after.free < need), left))
}

// The attempt ends for want of space.
fn no_space(target: TargetId, need: u32, free: u32) -> Outcome
    ensures { result ≡ outcome.NoSpace target need free }
{
    Outcome::NoSpace { target, need, free }
}

// Whether so many blocks may be free once writes that may take so many were stored.
fn is_stored_free(extended: bool, need: u32, before: u32, after: u32) -> bool
    ensures { Decides result (StoresFree extended need before after) }
{
    let fits = u64::from(before) <= u64::from(after) + u64::from(need);
    if extended {
        fits
    } else {
        need <= before && fits
    }
}

// Whether a target was left with this once writes were stored, and this followed.
fn is_stored_with(
    before: &TargetState,
    after: &TargetState,
    did: &Did,
    durable: &Durable,
    extended: bool,
    need: u32,
    memory: &TargetMemory,
    told: &Did,
) -> bool
    ensures { Decides result ((after.now.durable ≡ durable.now) × (StoresFree extended need before.now.free after.now.free × (◌≡◌ {A = TargetMemory × Did} (after.now.memory, did.now) (memory.now, told.now)))) }
{
    after.durable.is_same(durable)
        && is_stored_free(extended, need, before.free, after.free)
        && is_left(&after.memory, did, memory, told)
}

// Whether they are allowed and stored, and this is known and follows then.
fn stores_so(
    alloc: Global,
    plan: TargetPlan,
    storing: Storing,
    writes: &[MinorWrite],
    done: &(TargetMemory, Did),
    start: Covered,
    before: &TargetState,
    after: &TargetState,
    did: &Did,
) -> Result<bool, Memory>
    requires { AreWritesInForm writes.now }
    ensures { IfOk result (λ yes. Decides yes (StoresSo plan storing writes.now done.now start before.now after.now did.now)) }
{
    let need = blocks(writes);
    let allowed = allows(plan, storing, writes, &start, before)?;
    let Covered { durable, changed } = start;
    let stored = prepared(alloc, durable, storing.entry, writes)?;
    let left = is_stored_with(before, after, did, &stored, changed, need, &done.0, &done.1);
    Ok(both(allowed, left))
}

// Why the attempt is to restart, if that is the outcome.
fn restart_of(outcome: &Outcome) -> Option<&Cause>
    ensures { option_copied result ≡ restart_of outcome.now }
{
    match outcome {
        Outcome::Restart(cause) => Some(cause),
        _ => None,
    }
}

// Whether the outcome is want of space.
fn is_no_space(outcome: &Outcome) -> bool
    ensures { result ≡ is_no_space outcome.now }
{
    matches!(outcome, Outcome::NoSpace { .. })
}

// Whether a target ends so, in the way of this outcome.
fn ends_told(
    alloc: Global,
    plan: TargetPlan,
    storing: Storing,
    writes: &[MinorWrite],
    done: &(TargetMemory, Did),
    start: Covered,
    before: &TargetState,
    after: &TargetState,
    did: &Did,
    outcome: &Outcome,
) -> Result<bool, Memory>
    requires { AreWritesInForm writes.now }
    ensures { IfOk result (λ yes. Decides yes (EndsAs plan storing writes.now done.now start before.now after.now did.now (Some outcome.now))) }
{
    if let Some(cause) = restart_of(outcome) {
        return refuses_so(
            alloc, plan, storing, writes, &start, before, after, did, cause,
        );
    }
    if is_no_space(outcome) {
        lacks_space_so(alloc, plan, storing, writes, &start, before, after, did)
    } else {
        stores_so(
            alloc, plan, storing, writes, done, start, before, after, did,
        )
    }
}

/// Whether a target whose lease covers the epoch ends so, in the way of the outcome that is told.
pub fn ends_so(
    alloc: Global,
    plan: TargetPlan,
    storing: Storing,
    writes: &[MinorWrite],
    done: &(TargetMemory, Did),
    start: Covered,
    before: &TargetState,
    after: &TargetState,
    did: &Did,
) -> Result<bool, Memory>
    requires { AreWritesInForm writes.now }
    ensures { IfOk result (λ yes. Decides yes (EndsAs plan storing writes.now done.now start before.now after.now did.now (outcome_of did.now.posts))) }
{
    match outcome_of(did.posts.as_slice()) {
        Some(outcome) => {
            ends_told(
                alloc, plan, storing, writes, done, start, before, after, did, outcome,
            )
        }
        None => stores_so(
            alloc, plan, storing, writes, done, start, before, after, did,
        ),
    }
}
