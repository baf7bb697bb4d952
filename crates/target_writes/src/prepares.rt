// A target hears a Prepare: whole turns.
ghost use Rattle.std.specs.Prelude.{◌≡◌, ◌/◌, ◌≤◌, IfOk, IfErr, Some, false, []};
ghost use Rattle.world_ended.specs.Asking.{Asked, EndsAsked};
ghost use Rattle.world_ended.specs.world_letters.kinds.Loads.{AnswersOnce};
ghost use Rattle.std.specs.Option.{ForSome};
ghost use Rattle.daos_model.specs.declared.durable.Durable.{Durable};
ghost use Rattle.vos_store.specs.Refusals.{says};
ghost use Rattle.world_base.specs.declared.target.TargetMemory.{TargetMemory};
ghost use Rattle.world_base.specs.Prepares as prepare;
ghost use Rattle.world_base.specs.Requests.{with_ticks};
ghost use Rattle.target_parts.specs.world_contents.posts.Forms.{PostsInForm};
ghost use Rattle.target_parts.specs.Knowing.{memory_of};
ghost use Rattle.target_parts.specs.Stops.{IsSilent, stop_memory};
ghost use Rattle.target_writes.specs.Checks.{CanStore};
ghost use Rattle.target_writes.specs.Turns.{CanPrepareHere, IsPrepareInForm, PrepareTurn};
ghost use Rattle.target_parts.specs.Standing.{IsTarget, TurnRuns};

use crate::checks::prepare;
use base_messages::actor::ActorId;
use base_messages::message::Message;
use base_types::outcome::Outcome;
use std::alloc::Global;
use target_parts::epochs::hear;
use target_parts::halt::Halt;
use target_parts::knows::Knows;
use target_parts::stop::{TargetStop, stop_of};
use target_parts::telling::says;
use vos_store::refusal::Stopped;
use vos_store::store::Store;
use world_base::did::Did;
use world_base::request::PrepareRequest;
use world_base::target::TargetPlan;

// The leader is told a refusal, or that all is well.
fn acks(
    alloc: Global,
    request: &PrepareRequest,
    refusal: Option<Outcome>,
) -> Result<Did, TargetStop>
    ensures did { IfOk result (λ did. did ≡ prepare.acks request.now refusal) }
    ensures wanting { IfErr result (λ stop. stop ≡ stop_memory) }
    ensures silent { IsSilent result }
{
    let to = ActorId {
        client: false,
        number: u16::from(request.entry.leader),
    };
    let ack = Message::Ack {
        attempt: request.entry.attempt,
        inc: request.inc,
        refusal,
    };
    says(alloc, to, ack, None)
}

// It prepares an attempt's writes at an epoch that the lease covers.
fn prepare_at<S: Store>(
    alloc: Global,
    plan: TargetPlan,
    store: &mut S,
    knows: &mut Knows,
    request: &PrepareRequest,
) -> Result<Did, TargetStop>
    requires target { IsTarget plan (S.state store.old) (S.durable store.old) knows.old }
    requires running { (S.state store.old).stopped ≡ false }
    requires form { IsPrepareInForm plan.targets request.now.entry request.now.writes }
    requires heard { request.now.entry.epoch.0 / 256 ≤ knows.old.hlc.ticks }
    requires can { ForSome (S.durable store.old) (CanStore request.now.entry request.now.writes) }
    ensures turn { (d : Durable) → S.durable store.old ≡ Some d → (m : TargetMemory) → with_ticks request.now.entry.epoch m ≡ memory_of knows.old
        → PrepareTurn plan (S.state store.old).opening m request.now prepare.PrepareStage.Checking d (S.state store.old)
        (S.durable store.new) (S.state store.new) (S.may store.new) (memory_of knows.new) result }
    ensures posts { IfOk result (λ did. PostsInForm plan.targets knows.old.leader knows.new.leader did.posts) }
    ensures reads { IfOk result (λ did. AnswersOnce [] knows.old.member.memory knows.new.member.memory did.posts) }
    ensures ends { (asked : Asked) → IfOk result (λ did. EndsAsked asked knows.old.leader knows.new.leader did.posts) }
    ensures target { IsTarget plan (S.state store.new) (S.durable store.new) knows.new }
    ensures stopped { TurnRuns result (S.state store.old) (S.state store.new) (S.durable store.old) (S.durable store.new) }
{
    let writes = request.writes.as_slice();
    match prepare(store, plan, knows, &request.entry, request.first, writes) {
        Ok(refusal) => acks(alloc, request, refusal),
        Err(halt) => Err(stop_of(alloc, halt, None)),
    }
}

/// It hears a Prepare: the epoch is heard, which the lease is to cover, the writes are checked and
/// stored, and the leader is told.
///
/// # Errors
///
/// `Store` where the store stopped, and then the turn was cut short; else for want of memory.
pub fn hear_prepare<S: Store>(
    alloc: Global,
    plan: TargetPlan,
    store: &mut S,
    knows: &mut Knows,
    request: &PrepareRequest,
) -> Result<Did, TargetStop>
    requires target { IsTarget plan (S.state store.old) (S.durable store.old) knows.old }
    requires running { (S.state store.old).stopped ≡ false }
    requires form { IsPrepareInForm plan.targets request.now.entry request.now.writes }
    requires here { ForSome (S.durable store.old) (CanPrepareHere request.now.entry request.now.writes) }
    ensures turn { (d : Durable) → S.durable store.old ≡ Some d
        → PrepareTurn plan (S.state store.old).opening (memory_of knows.old) request.now prepare.PrepareStage.Heard d (S.state store.old)
        (S.durable store.new) (S.state store.new) (S.may store.new) (memory_of knows.new) result }
    ensures posts { IfOk result (λ did. PostsInForm plan.targets knows.old.leader knows.new.leader did.posts) }
    ensures reads { IfOk result (λ did. AnswersOnce [] knows.old.member.memory knows.new.member.memory did.posts) }
    ensures ends { (asked : Asked) → IfOk result (λ did. EndsAsked asked knows.old.leader knows.new.leader did.posts) }
    ensures target { IsTarget plan (S.state store.new) (S.durable store.new) knows.new }
    ensures stopped { TurnRuns result (S.state store.old) (S.state store.new) (S.durable store.old) (S.durable store.new) }
{
    match hear(plan, store, knows, request.entry.epoch) {
        Ok(()) => prepare_at(alloc, plan, store, knows, request),
        Err(Stopped) => Err(stop_of(alloc, Halt::Stopped, None)),
    }
}
