// A target hears a Fetch.
ghost use Rattle.std.specs.Prelude.{◌≡◌, true, false, None, IfOk, Decides, is_some};
ghost use Rattle.base_types.specs.declared.outcome.Outcome.TheVariants as outcome;
ghost use Rattle.base_messages.specs.declared.message.Reply.TheVariants as reply;
ghost use Rattle.replay_base.specs.Heard.{CanRead};
ghost use Rattle.replay_base.specs.Requested.{IsToldEpoch, TellsEpoch};
ghost use Rattle.replay_fetch.specs.Fetched.{FetchLeaves, FetchesSo, begins_at};
ghost use Rattle.world_base.specs.Reads.{FetchStage, fetched_message};
ghost use Rattle.world_base.specs.Requests as asked;

use crate::reads::{Work, read_from};
use base_messages::actor::ActorId;
use base_messages::message::{Message, Reply};
use base_types::epoch::Epoch;
use base_types::items::Memory;
use base_types::outcome::Outcome;
use replay_base::epochs::{asks_at, told_epoch};
use replay_base::kept::copy_kept;
use replay_base::leases::cover;
use replay_base::memories::copy_memory;
use replay_base::told::{Left, is_left_if, is_spent_so, says};
use std::alloc::Global;
use world_base::did::Did;
use world_base::request::FetchRequest;
use world_base::target::{TargetPlan, TargetState};

// What a target leaves that hears a Fetch of this epoch.
fn known_from(
    alloc: Global,
    plan: TargetPlan,
    from: ActorId,
    request: &FetchRequest,
    epoch: Epoch,
    work: Work,
) -> Result<Option<Left>, Memory>
    requires { CanRead plan work.durable work.memory.leader.decided }
    ensures { IfOk result (FetchLeaves plan from request.now work.memory (begins_at request.now epoch work.memory) work.durable work.changed) }
{
    if request.snapshot {
        return read_from(alloc, plan, from, request, epoch, work);
    }
    let Work {
        durable,
        changed,
        memory,
    } = work;
    match cover(durable, changed, epoch.ticks()) {
        Some(start) => {
            let work = Work {
                durable: start.durable,
                changed: start.changed,
                memory,
            };
            read_from(alloc, plan, from, request, epoch, work)
        }
        None => Ok(None),
    }
}

/// What a target leaves that tries a Fetch with its own epoch.
pub fn fetch_again(
    alloc: Global,
    plan: TargetPlan,
    from: ActorId,
    request: &FetchRequest,
    work: Work,
) -> Result<Option<Left>, Memory>
    requires timed { is_some request.now.ep ≡ true }
    requires read { CanRead plan work.durable work.memory.leader.decided }
    ensures { IfOk result (FetchLeaves plan from request.now work.memory FetchStage.Asked work.durable work.changed) }
{
    match request.ep {
        Some(epoch) => known_from(alloc, plan, from, request, epoch, work),
        None => Ok(None),
    }
}

// Where a target begins.
fn start_of(alloc: Global, before: &TargetState) -> Result<Work, Memory>
    ensures { IfOk result (λ work. work ≡ record { durable = before.now.durable; changed = false; memory = before.now.memory }) }
{
    Ok(Work {
        durable: copy_kept(alloc, &before.durable)?,
        changed: false,
        memory: copy_memory(alloc, &before.memory)?,
    })
}

// Whether a Fetch with its own epoch leads to this state, and this follows.
fn own_so(
    alloc: Global,
    plan: TargetPlan,
    from: ActorId,
    request: &FetchRequest,
    before: &TargetState,
    after: &TargetState,
    did: &Did,
) -> Result<bool, Memory>
    requires timed { is_some request.now.ep ≡ true }
    requires read { CanRead plan before.now.durable before.now.memory.leader.decided }
    ensures { IfOk result (λ yes. Decides yes (FetchesSo plan from request.now before.now after.now did.now)) }
{
    let work = start_of(alloc, before)?;
    let left = fetch_again(alloc, plan, from, request, work)?;
    Ok(is_left_if(&left, before, after, did))
}

// What follows where no ticks are left.
fn spent(alloc: Global, from: ActorId, request: &FetchRequest) -> Result<Did, Memory>
    ensures { IfOk result (λ did. did ≡ asked.says from (fetched_message request.now None (reply.Outcome outcome.EpochsSpent)) None) }
{
    let message = Message::Fetched {
        attempt: request.attempt,
        op: request.op,
        group: request.group,
        epoch: None,
        reply: Reply::Outcome(Outcome::EpochsSpent),
    };
    says(alloc, from, message, None)
}

// Whether a Fetch without an epoch, where none was issued, leads to this state because no ticks were
// left.
fn spent_so(
    alloc: Global,
    plan: TargetPlan,
    from: ActorId,
    request: &FetchRequest,
    before: &TargetState,
    after: &TargetState,
    did: &Did,
) -> Result<bool, Memory>
    requires now { request.now.snapshot ≡ false }
    requires told { TellsEpoch request.now.ep did.now.issued None }
    ensures { IfOk result (λ yes. Decides yes (FetchesSo plan from request.now before.now after.now did.now)) }
{
    let told = spent(alloc, from, request)?;
    Ok(is_spent_so(plan, request.tracker, before, after, did, &told))
}

// Whether a Fetch of this epoch, which was issued, leads to this state.
fn asked_so(
    alloc: Global,
    plan: TargetPlan,
    from: ActorId,
    request: &FetchRequest,
    epoch: Epoch,
    before: &TargetState,
    after: &TargetState,
    did: &Did,
) -> Result<bool, Memory>
    requires now { request.now.snapshot ≡ false }
    requires told { IsToldEpoch request.now.ep did.now.issued epoch }
    requires read { CanRead plan before.now.durable before.now.memory.leader.decided }
    ensures { IfOk result (λ yes. Decides yes (FetchesSo plan from request.now before.now after.now did.now)) }
{
    if asks_at(plan, &before.memory, request.tracker, request.ep, epoch) {
        let work = start_of(alloc, before)?;
        let left = known_from(alloc, plan, from, request, epoch, work)?;
        Ok(is_left_if(&left, before, after, did))
    } else {
        Ok(false)
    }
}

// The same of a read that isn't at a snapshot.
fn now_so(
    alloc: Global,
    plan: TargetPlan,
    from: ActorId,
    request: &FetchRequest,
    before: &TargetState,
    after: &TargetState,
    did: &Did,
) -> Result<bool, Memory>
    requires now { request.now.snapshot ≡ false }
    requires read { CanRead plan before.now.durable before.now.memory.leader.decided }
    ensures { IfOk result (λ yes. Decides yes (FetchesSo plan from request.now before.now after.now did.now)) }
{
    match told_epoch(request.ep, did) {
        Some(epoch) => asked_so(alloc, plan, from, request, epoch, before, after, did),
        None => spent_so(alloc, plan, from, request, before, after, did),
    }
}

// The same of one without an epoch, which is none at a snapshot.
fn unknown_so(
    alloc: Global,
    plan: TargetPlan,
    from: ActorId,
    request: &FetchRequest,
    before: &TargetState,
    after: &TargetState,
    did: &Did,
) -> Result<bool, Memory>
    requires unknown { request.now.ep ≡ None }
    requires read { CanRead plan before.now.durable before.now.memory.leader.decided }
    ensures { IfOk result (λ yes. Decides yes (FetchesSo plan from request.now before.now after.now did.now)) }
{
    if request.snapshot {
        Ok(false)
    } else {
        now_so(alloc, plan, from, request, before, after, did)
    }
}

/// Whether a target that hears a Fetch comes from one state to another, and this follows, at some reading of
/// its clock.
pub fn fetches_so(
    alloc: Global,
    plan: TargetPlan,
    from: ActorId,
    request: &FetchRequest,
    before: &TargetState,
    after: &TargetState,
    did: &Did,
) -> Result<bool, Memory>
    requires { CanRead plan before.now.durable before.now.memory.leader.decided }
    ensures { IfOk result (λ yes. Decides yes (FetchesSo plan from request.now before.now after.now did.now)) }
{
    match request.ep {
        Some(_own) => own_so(alloc, plan, from, request, before, after, did),
        None => unknown_so(alloc, plan, from, request, before, after, did),
    }
}
