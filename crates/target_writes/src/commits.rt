// A target hears a Commit: whole turns.
ghost use Rattle.std.specs.Prelude.{◌≡◌, ◌/◌, ◌<◌, ◌≤◌, ℕ, IfOk, IfErr, IfSome, Some, None, is_some, true, false, []};
ghost use Rattle.world_ended.specs.Asking.{Asked, EndsAsked};
ghost use Rattle.world_ended.specs.world_letters.kinds.Loads.{AnswersOnce};
ghost use Rattle.std.specs.Option.{ForSome};
ghost use Rattle.base_messages.specs.declared.message.Message.TheVariants as message;
ghost use Rattle.daos_model.specs.declared.durable.Durable.{Durable};
ghost use Rattle.vos_store.specs.Refusals.{says};
ghost use Rattle.world_base.specs.declared.target.TargetMemory.{TargetMemory};
ghost use Rattle.world_base.specs.Commits as commit;
ghost use Rattle.world_base.specs.Requests as asked;
ghost use Rattle.target_parts.specs.world_contents.posts.Forms.{PostsInForm};
ghost use Rattle.target_parts.specs.Knowing.{IsApart, IsOpenHere, memory_of};
ghost use Rattle.target_parts.specs.Stops.{IsSilent, stop_memory};
ghost use Rattle.target_writes.specs.Checks.{AreWrites, CanCommit, CanStore};
ghost use Rattle.target_writes.specs.Turns.{CommitTurn, begun_of};
ghost use Rattle.target_parts.specs.Standing.{IsTarget, TurnRuns};
ghost use Rattle.target_parts.specs.Readings.{AreReadings, most_readings};

use crate::checks::prepare;
use base_messages::actor::ActorId;
use base_messages::message::Message;
use base_outside::clock::Clock;
use base_types::entry::Entry;
use base_types::epoch::Epoch;
use base_types::id::AttemptId;
use base_types::items::Memory;
use base_types::outcome::Outcome;
use std::alloc::Global;
use target_members::below::table::written::writes_at;
use target_members::members::members_of;
use target_parts::epochs::ready;
use target_parts::halt::Halt;
use target_parts::kept::seat_of;
use target_parts::knows::Knows;
use target_parts::stop::{TargetStop, stop_of};
use target_parts::telling::{issued_for, says, sends};
use vos_store::refusal::Stopped;
use vos_store::store::Store;
use world_base::did::Did;
use world_base::request::CommitRequest;
use world_base::target::TargetPlan;

// An attempt ended.
pub(crate) fn ended(attempt: AttemptId, ep: Option<Epoch>, outcome: Outcome) -> Message
    ensures { result ≡ message.Ended attempt ep outcome }
{
    Message::Ended {
        attempt,
        ep,
        outcome,
    }
}

// The entry of an attempt that this target leads.
fn led_entry(
    alloc: Global,
    plan: TargetPlan,
    request: &CommitRequest,
    epoch: Epoch,
) -> Result<Entry, Memory>
    requires few { plan.targets ≤ 64 }
    requires writes { AreWrites plan request.now.writes }
    ensures { IfOk result (λ entry. entry ≡ commit.led_entry plan request.now epoch) }
{
    let members = members_of(alloc, request.writes.as_slice(), plan.targets)?;
    Ok(Entry {
        attempt: request.attempt,
        epoch,
        leader: plan.me,
        members,
        confirmed: 0,
        committed: false,
    })
}

// An attempt begins, whose own writes are stored.
fn begin<S: Store>(
    alloc: Global,
    plan: TargetPlan,
    store: &S,
    knows: &mut Knows,
    from: ActorId,
    request: &CommitRequest,
    entry: &Entry,
) -> Result<Did, TargetStop>
    requires target { IsTarget plan (S.state store.now) (S.durable store.now) knows.old }
    requires running { (S.state store.now).stopped ≡ false }
    requires writes { AreWrites plan request.now.writes }
    requires entry { entry.now ≡ commit.led_entry plan request.now entry.now.epoch }
    requires here { ForSome (S.durable store.now) (IsOpenHere plan.me request.now.attempt) }
    requires apart { ForSome (S.durable store.now) (λ _. IsApart request.now.attempt knows.old.leader) }
    ensures begun { ForSome (S.durable store.now) (λ d. IfOk result (λ did. (memory_of knows.new, did) ≡ begun_of plan (memory_of knows.old) request.now from entry.now.epoch d)) }
    ensures wanting { IfErr result (λ stop. stop ≡ stop_memory) }
    ensures silent { IsSilent result }
    ensures posts { plan.me < plan.targets → from.client ≡ true → IfOk result (λ did. PostsInForm plan.targets knows.old.leader knows.new.leader did.posts) }
    ensures reads { IfOk result (λ did. AnswersOnce [] knows.old.member.memory knows.new.member.memory did.posts) }
    ensures ends { (wanted : Asked) → wanted request.now.attempt ≡ true → IfOk result (λ did. EndsAsked wanted knows.old.leader knows.new.leader did.posts) }
    ensures target { IsTarget plan (S.state store.now) (S.durable store.now) knows.new }
{
    let seat = seat_of(plan, store);
    let posts = knows.leader.begin(seat, entry, request.first, from, request.writes.as_slice())?;
    let issued = issued_for(request.attempt, request.ep, entry.epoch);
    Ok(sends(alloc, posts, issued))
}

// It commits an attempt's writes at an epoch that the lease covers.
fn commit_at<S: Store>(
    alloc: Global,
    plan: TargetPlan,
    store: &mut S,
    knows: &mut Knows,
    from: ActorId,
    request: &CommitRequest,
    epoch: Epoch,
) -> Result<Did, TargetStop>
    requires target { IsTarget plan (S.state store.old) (S.durable store.old) knows.old }
    requires running { (S.state store.old).stopped ≡ false }
    requires writes { AreWrites plan request.now.writes }
    requires heard { epoch.0 / 256 ≤ knows.old.hlc.ticks }
    requires can { ForSome (S.durable store.old) (CanStore (commit.led_entry plan request.now epoch) (commit.own_writes plan request.now.writes)) }
    ensures turn { (d : Durable) → S.durable store.old ≡ Some d → (m : TargetMemory) (reading : ℕ) → asked.with_ticks epoch m ≡ memory_of knows.old
        → CommitTurn plan (S.state store.old).opening m reading request.now from (commit.CommitStage.Checking epoch) d (S.state store.old)
        (S.durable store.new) (S.state store.new) (S.may store.new) (memory_of knows.new) result }
    ensures posts { from.client ≡ true → IfOk result (λ did. PostsInForm plan.targets knows.old.leader knows.new.leader did.posts) }
    ensures reads { IfOk result (λ did. AnswersOnce [] knows.old.member.memory knows.new.member.memory did.posts) }
    ensures ends { (wanted : Asked) → wanted request.now.attempt ≡ true → IfOk result (λ did. EndsAsked wanted knows.old.leader knows.new.leader did.posts) }
    ensures target { IsTarget plan (S.state store.new) (S.durable store.new) knows.new }
    ensures stopped { TurnRuns result (S.state store.old) (S.state store.new) (S.durable store.old) (S.durable store.new) }
{
    let issued = issued_for(request.attempt, request.ep, epoch);
    let entry = led_entry(alloc, plan, request, epoch)?;
    let own = writes_at(alloc, request.writes.as_slice(), plan.targets, plan.me)?;
    match prepare(store, plan, knows, &entry, request.first, own.as_slice()) {
        Ok(None) => begin(alloc, plan, store, knows, from, request, &entry),
        Ok(Some(outcome)) => says(
            alloc,
            from,
            ended(request.attempt, Some(epoch), outcome),
            issued,
        ),
        Err(halt) => Err(stop_of(alloc, halt, issued)),
    }
}

/// It hears a Commit: an epoch is issued or heard, which the lease is to cover, and the writes of its
/// groups are checked and stored at it; then the attempt begins. Its clock is read only where an epoch
/// is issued.
///
/// # Errors
///
/// `Store` where the store stopped, and then the turn was cut short; else for want of memory.
pub fn hear_commit<S: Store, C: Clock>(
    alloc: Global,
    plan: TargetPlan,
    store: &mut S,
    clock: &mut C,
    knows: &mut Knows,
    from: ActorId,
    request: &CommitRequest,
) -> Result<Did, TargetStop>
    requires target { IsTarget plan (S.state store.old) (S.durable store.old) knows.old }
    requires running { (S.state store.old).stopped ≡ false }
    requires writes { AreWrites plan request.now.writes }
    requires here { ForSome (S.durable store.old) (CanCommit plan request.now.attempt request.now.ep request.now.writes) }
    ensures turn { (reading : ℕ) × IfSome (C.next clock.old) (λ r. r ≡ reading) × ((d : Durable) → S.durable store.old ≡ Some d
        → CommitTurn plan (S.state store.old).opening (memory_of knows.old) reading request.now from commit.CommitStage.Asked d (S.state store.old)
        (S.durable store.new) (S.state store.new) (S.may store.new) (memory_of knows.new) result) }
    ensures posts { from.client ≡ true → IfOk result (λ did. PostsInForm plan.targets knows.old.leader knows.new.leader did.posts) }
    ensures reads { IfOk result (λ did. AnswersOnce [] knows.old.member.memory knows.new.member.memory did.posts) }
    ensures ends { (wanted : Asked) → wanted request.now.attempt ≡ true → IfOk result (λ did. EndsAsked wanted knows.old.leader knows.new.leader did.posts) }
    ensures target { IsTarget plan (S.state store.new) (S.durable store.new) knows.new }
    ensures stopped { TurnRuns result (S.state store.old) (S.state store.new) (S.durable store.old) (S.durable store.new) }
    ensures clock { AreReadings C.is_read (most_readings (is_some request.now.ep)) clock.old clock.new }
{
    match ready(plan, store, clock, knows, request.tracker, request.ep) {
        Ok(Some(epoch)) => commit_at(alloc, plan, store, knows, from, request, epoch),
        Ok(None) => {
            let message = ended(request.attempt, None, Outcome::EpochsSpent);
            says(alloc, from, message, None)
        }
        Err(Stopped) => Err(stop_of(alloc, Halt::Stopped, None)),
    }
}
