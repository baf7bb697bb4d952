// A target hears a Commit.
ghost use Rattle.std.specs.Prelude.{◌≡◌, false, ℕ, None, IfOk, Decides};
ghost use Rattle.base_types.specs.declared.outcome.Outcome.TheVariants as outcome;
ghost use Rattle.base_messages.specs.declared.message.Message.TheVariants as message;
ghost use Rattle.replay_base.specs.Heard.{CanCommit};
ghost use Rattle.replay_base.specs.Onward.{Onward, keeps};
ghost use Rattle.replay_base.specs.Requested.{IsToldEpoch, TellsEpoch};
ghost use Rattle.replay_writes.specs.Committed.{CommitsSo};
ghost use Rattle.replay_writes.specs.Begun.{begun_left, storing_of};
ghost use Rattle.world_base.specs.Commits.{CommitEnds, CommitNext, CommitStage, own_writes};
ghost use Rattle.world_base.specs.Requests as asked;

use crate::ways::{Storing, Tells, ends_so, with_ticks};
use base_messages::actor::ActorId;
use base_messages::message::Message;
use base_types::entry::Entry;
use base_types::epoch::Epoch;
use base_types::items::Memory;
use base_types::operation::{MinorWrite, MinorWrites};
use base_types::outcome::Outcome;
use dtx_leader::decisions::Decisions;
use dtx_table::seat::Seat;
use dtx_table::written::writes_at;
use replay_base::epochs::{asks_at, told_epoch};
use replay_base::kept::copy_kept;
use replay_base::leases::{Covered, cover};
use replay_base::told::{is_spent_so, issued_for, says, sends};
use std::alloc::Global;
use target_members::members::members_of;
use world_base::did::Did;
use world_base::request::CommitRequest;
use world_base::target::{TargetMemory, TargetPlan, TargetState};

// The writes of a target's own groups.
#[tactic(auto, unfolding(dtx_base::specs::Members::is_written_at))]
fn own_writes(alloc: Global, plan: TargetPlan, writes: &[MinorWrite]) -> Result<MinorWrites, Memory>
    requires { CanCommit plan writes.now }
    ensures { IfOk result (λ own. own ≡ own_writes plan writes.now) }
{
    writes_at(alloc, writes, plan.targets, plan.me)
}

// What writes are to be stored for: an attempt that this target leads.
fn storing_of(
    alloc: Global,
    plan: TargetPlan,
    from: ActorId,
    request: &CommitRequest,
    epoch: Epoch,
) -> Result<Storing, Memory>
    requires { CanCommit plan request.now.writes }
    ensures { IfOk result (λ storing. storing ≡ storing_of plan from request.now epoch) }
{
    let entry = Entry {
        attempt: request.attempt,
        epoch,
        leader: plan.me,
        members: members_of(alloc, request.writes.as_slice(), plan.targets)?,
        confirmed: 0,
        committed: false,
    };
    let tells = Tells::Client {
        to: from,
        attempt: request.attempt,
        epoch,
        issued: issued_for(request.attempt, request.ep, epoch),
    };
    Ok(Storing {
        first: request.first,
        entry,
        tells,
    })
}

// What a target knows once an attempt began, and what follows.
fn begun_left(
    alloc: Global,
    plan: TargetPlan,
    from: ActorId,
    request: &CommitRequest,
    entry: &Entry,
    incarnation: u64,
    memory: TargetMemory,
) -> Result<(TargetMemory, Did), Memory>
    requires { CanCommit plan request.now.writes }
    ensures { IfOk result (λ left. left ≡ begun_left plan from request.now entry.now incarnation memory) }
{
    let TargetMemory {
        ticks,
        stamps,
        leader,
        member,
        collecting,
    } = memory;
    let mut leader = Decisions::remembering(alloc, leader);
    let seat = Seat {
        me: plan.me,
        targets: plan.targets,
        incarnation,
    };
    let posts = leader.begin(seat, entry, request.first, from, request.writes.as_slice())?;
    let memory = TargetMemory {
        ticks,
        stamps,
        leader: leader.into_memory(),
        member,
        collecting,
    };
    let issued = issued_for(request.attempt, request.ep, entry.epoch);
    Ok((memory, sends(alloc, posts, issued)))
}

// Whether a Commit from where the lease covers the epoch leads to this state, and this follows.
fn checked_so(
    alloc: Global,
    plan: TargetPlan,
    from: ActorId,
    request: &CommitRequest,
    epoch: Epoch,
    start: Covered,
    before: &TargetState,
    after: &TargetState,
    did: &Did,
) -> Result<bool, Memory>
    requires { CanCommit plan request.now.writes }
    ensures { IfOk result (λ yes. (reading : ℕ)
        → Decides yes (Onward (CommitNext plan before.now.opening before.now.memory reading request.now) (CommitEnds plan before.now.opening before.now.memory reading request.now from)
        (CommitStage.Checking epoch) start.durable start.changed before.now.free (keeps after.now.durable after.now.free) (after.now.memory, did.now))) }
{
    let writes = own_writes(alloc, plan, request.writes.as_slice())?;
    let storing = storing_of(alloc, plan, from, request, epoch)?;
    let memory = with_ticks(alloc, &before.memory, epoch)?;
    let incarnation = start.durable.incarnation;
    let done = begun_left(
        alloc,
        plan,
        from,
        request,
        &storing.entry,
        incarnation,
        memory,
    )?;
    ends_so(
        alloc,
        plan,
        storing,
        writes.as_slice(),
        &done,
        start,
        before,
        after,
        did,
    )
}

// The same from where the epoch is known, which the lease is to cover.
fn known_so(
    alloc: Global,
    plan: TargetPlan,
    from: ActorId,
    request: &CommitRequest,
    epoch: Epoch,
    before: &TargetState,
    after: &TargetState,
    did: &Did,
) -> Result<bool, Memory>
    requires { CanCommit plan request.now.writes }
    ensures { IfOk result (λ yes. (reading : ℕ)
        → Decides yes (Onward (CommitNext plan before.now.opening before.now.memory reading request.now) (CommitEnds plan before.now.opening before.now.memory reading request.now from)
        (CommitStage.Known epoch) before.now.durable false before.now.free (keeps after.now.durable after.now.free) (after.now.memory, did.now))) }
{
    match cover(copy_kept(alloc, &before.durable)?, false, epoch.ticks()) {
        Some(start) => checked_so(alloc, plan, from, request, epoch, start, before, after, did),
        None => Ok(false),
    }
}

// What follows where no ticks are left.
fn spent(alloc: Global, from: ActorId, request: &CommitRequest) -> Result<Did, Memory>
    ensures { IfOk result (λ did. did ≡ asked.says from (message.Ended request.now.attempt None outcome.EpochsSpent) None) }
{
    let message = Message::Ended {
        attempt: request.attempt,
        ep: None,
        outcome: Outcome::EpochsSpent,
    };
    says(alloc, from, message, None)
}

// Whether a Commit without an epoch, where none was issued, leads to this state because no ticks were
// left.
fn spent_so(
    alloc: Global,
    plan: TargetPlan,
    from: ActorId,
    request: &CommitRequest,
    before: &TargetState,
    after: &TargetState,
    did: &Did,
) -> Result<bool, Memory>
    requires { TellsEpoch request.now.ep did.now.issued None }
    ensures { IfOk result (λ yes. Decides yes (CommitsSo plan from request.now before.now after.now did.now)) }
{
    let told = spent(alloc, from, request)?;
    Ok(is_spent_so(plan, request.tracker, before, after, did, &told))
}

// Whether a Commit of this epoch, its own or the one that was issued, leads to this state.
fn asked_so(
    alloc: Global,
    plan: TargetPlan,
    from: ActorId,
    request: &CommitRequest,
    epoch: Epoch,
    before: &TargetState,
    after: &TargetState,
    did: &Did,
) -> Result<bool, Memory>
    requires told { IsToldEpoch request.now.ep did.now.issued epoch }
    requires asked { CanCommit plan request.now.writes }
    ensures { IfOk result (λ yes. Decides yes (CommitsSo plan from request.now before.now after.now did.now)) }
{
    if asks_at(plan, &before.memory, request.tracker, request.ep, epoch) {
        known_so(alloc, plan, from, request, epoch, before, after, did)
    } else {
        Ok(false)
    }
}

/// Whether a target that hears a Commit comes from one state to another, and this follows, at some reading
/// of its clock.
pub fn commits_so(
    alloc: Global,
    plan: TargetPlan,
    from: ActorId,
    request: &CommitRequest,
    before: &TargetState,
    after: &TargetState,
    did: &Did,
) -> Result<bool, Memory>
    requires { CanCommit plan request.now.writes }
    ensures { IfOk result (λ yes. Decides yes (CommitsSo plan from request.now before.now after.now did.now)) }
{
    match told_epoch(request.ep, did) {
        Some(epoch) => asked_so(alloc, plan, from, request, epoch, before, after, did),
        None => spent_so(alloc, plan, from, request, before, after, did),
    }
}
