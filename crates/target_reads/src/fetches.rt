// A target hears a Fetch: whole turns.
ghost use Rattle.std.specs.Prelude.{◌≡◌, ◌/◌, ◌≤◌, ◌∷◌, ℕ, [], IfOk, IfErr, IfSome, OnOk, Some, None, is_some, true, false};
ghost use Rattle.world_ended.specs.Asking.{Asked, EndsAsked};
ghost use Rattle.std.specs.Option.{ForSome};
ghost use Rattle.base_types.specs.Operations.{read_path};
ghost use Rattle.daos_model.specs.declared.durable.Durable.{Durable};
ghost use Rattle.daos_model.specs.Durables.{is_enlisted};
ghost use Rattle.daos_model.specs.Forms.{is_read_in_form};
ghost use Rattle.vos_store.specs.Refusals.{says};
ghost use Rattle.world_base.specs.declared.target.TargetMemory.{TargetMemory};
ghost use Rattle.world_base.specs.Reads.{FetchStage, fetch_at, fetched_message, stamps_with, ticks_known};
ghost use Rattle.world_base.specs.Requests as asked;
ghost use Rattle.world_base.specs.Requests.{fetch_message};
ghost use Rattle.world_ended.specs.world_letters.kinds.Loads.{AnswersOnce};
ghost use Rattle.target_parts.specs.world_contents.posts.Forms.{PostsInForm};
ghost use Rattle.target_parts.specs.Knowing.{IsOwn, IsReadAsked, LeadsWell, memory_of};
ghost use Rattle.target_parts.specs.Stops.{IsSilent, stop_memory};
ghost use Rattle.target_reads.specs.Fetches.{FetchTurn};
ghost use Rattle.target_reads.specs.Meets.{told_of};
ghost use Rattle.target_parts.specs.Standing.{IsTarget, TurnRuns};
ghost use Rattle.target_parts.specs.Readings.{AreReadings, most_readings};

use crate::reads::{Served, serve};
use base_messages::actor::ActorId;
use base_messages::message::{Message, Reply};
use base_outside::clock::Clock;
use base_types::epoch::Epoch;
use base_types::id::AttemptId;
use base_types::items::Memory;
use base_types::outcome::{Cause, Outcome};
use std::alloc::Global;
use target_parts::epochs::{hear, ready};
use target_parts::halt::Halt;
use target_parts::knows::Knows;
use target_parts::stop::{TargetStop, stop_of};
use target_parts::telling::{issued_for, says, sends};
use vos_stamp::stamps::Stamps;
use vos_store::refusal::Stopped;
use vos_store::store::Store;
use world_base::did::Did;
use world_base::request::FetchRequest;
use world_base::target::TargetPlan;

// The answer to a Fetch.
fn fetched(request: &FetchRequest, epoch: Option<Epoch>, reply: Reply) -> Message
    ensures { result ≡ fetched_message request.now epoch reply }
{
    Message::Fetched {
        attempt: request.attempt,
        op: request.op,
        group: request.group,
        epoch,
        reply,
    }
}

// A Fetch that is to be tried again, at its epoch.
fn fetch_at(request: &FetchRequest, epoch: Epoch) -> Result<Message, Memory>
    ensures { IfOk result (λ message. message ≡ fetch_at request.now epoch) }
{
    Ok(Message::Fetch {
        attempt: request.attempt,
        op: request.op,
        group: request.group,
        ep: Some(epoch),
        first: request.first,
        tracker: request.tracker,
        read: request.read.copy()?,
        snapshot: request.snapshot,
    })
}

// The read is raised among the timestamps, unless it reads at a snapshot.
fn raise(stamps: &mut Stamps, request: &FetchRequest, epoch: Epoch) -> Result<(), Memory>
    requires { is_read_in_form request.now.read ≡ true }
    ensures { OnOk result (stamps.new.reads ≡ stamps_with request.now epoch stamps.old.reads) }
{
    if request.snapshot {
        return Ok(());
    }
    stamps.read(request.read.path(), epoch, request.attempt)
}

// What follows from what a read came to.
fn tell(
    alloc: Global,
    plan: TargetPlan,
    knows: &mut Knows,
    from: ActorId,
    request: &FetchRequest,
    epoch: Epoch,
    served: Served,
) -> Result<Did, TargetStop>
    requires form { IsReadAsked request.now.read request.now.ep request.now.snapshot }
    requires own { IsOwn plan knows.old }
    ensures told { IfOk result (λ did. (memory_of knows.new, did) ≡ told_of plan request.now from epoch served (memory_of knows.old)) }
    ensures wanting { IfErr result (λ stop. stop ≡ stop_memory) }
    ensures silent { IsSilent result }
    ensures leads { (d : Durable) → is_enlisted d (read_path request.now.read).cont ≡ true → LeadsWell plan (memory_of knows.old) knows.old.entries.items d
        → LeadsWell plan (memory_of knows.new) knows.new.entries.items d }
    ensures own { IsOwn plan knows.new }
    ensures clock { knows.new.hlc ≡ knows.old.hlc }
{
    let _plan = plan;
    let issued = issued_for(request.attempt, request.ep, epoch);
    let reply = match served {
        Served::Waits { on, leader } => {
            let ask = fetch_at(request, epoch)?;
            let posts = knows.member.park(ask, on, leader)?;
            return Ok(sends(alloc, posts, issued));
        }
        Served::Refused(cause) => Reply::Outcome(Outcome::Restart(cause)),
        Served::Unresolved(by) => Reply::Outcome(Outcome::Restart(Cause::Unresolved { by })),
        Served::Answer(answer) => {
            raise(&mut knows.stamps, request, epoch)?;
            Reply::Answer(answer)
        }
    };
    says(alloc, from, fetched(request, Some(epoch), reply), issued)
}

// It makes a read at an epoch that it may read at.
fn read_at<S: Store>(
    alloc: Global,
    plan: TargetPlan,
    store: &mut S,
    knows: &mut Knows,
    from: ActorId,
    request: &FetchRequest,
    epoch: Epoch,
) -> Result<Did, TargetStop>
    requires target { IsTarget plan (S.state store.old) (S.durable store.old) knows.old }
    requires running { (S.state store.old).stopped ≡ false }
    requires form { IsReadAsked request.now.read request.now.ep request.now.snapshot }
    requires enlisted { ForSome (S.durable store.old) (λ d. is_enlisted d (read_path request.now.read).cont ≡ true) }
    ensures turn { (d : Durable) → S.durable store.old ≡ Some d → (m : TargetMemory) (reading : ℕ) → ticks_known request.now epoch m ≡ memory_of knows.old
        → FetchTurn plan m reading request.now from (FetchStage.Reading epoch knows.old.leader.decided) d (S.state store.old)
        (S.durable store.new) (S.state store.new) (S.may store.new) (memory_of knows.new) result }
    ensures posts { from.client ≡ true → IfOk result (λ did. PostsInForm plan.targets knows.old.leader knows.new.leader did.posts) }
    ensures reads { IfOk result (λ did. AnswersOnce (fetch_message request.now ∷ []) knows.old.member.memory knows.new.member.memory did.posts) }
    ensures ends { (wanted : Asked) → IfOk result (λ did. EndsAsked wanted knows.old.leader knows.new.leader did.posts) }
    ensures target { IsTarget plan (S.state store.new) (S.durable store.new) knows.new }
    ensures stopped { TurnRuns result (S.state store.old) (S.state store.new) (S.durable store.old) (S.durable store.new) }
{
    match serve(store, plan, knows, request, epoch) {
        Ok(served) => tell(alloc, plan, knows, from, request, epoch, served),
        Err(halt) => {
            let issued = issued_for(request.attempt, request.ep, epoch);
            Err(stop_of(alloc, halt, issued))
        }
    }
}

/// It hears a Fetch that has an epoch: it reads at that, which the lease is to cover unless it is a
/// snapshot's.
///
/// # Errors
///
/// `Store` where the store stopped, and then the turn was cut short; else for want of memory.
pub fn hear_known<S: Store>(
    alloc: Global,
    plan: TargetPlan,
    store: &mut S,
    knows: &mut Knows,
    from: ActorId,
    request: &FetchRequest,
    epoch: Epoch,
) -> Result<Did, TargetStop>
    requires target { IsTarget plan (S.state store.old) (S.durable store.old) knows.old }
    requires running { (S.state store.old).stopped ≡ false }
    requires form { IsReadAsked request.now.read request.now.ep request.now.snapshot }
    requires known { request.now.ep ≡ Some epoch }
    requires enlisted { ForSome (S.durable store.old) (λ d. is_enlisted d (read_path request.now.read).cont ≡ true) }
    ensures turn { (d : Durable) → S.durable store.old ≡ Some d → (reading : ℕ)
        → FetchTurn plan (memory_of knows.old) reading request.now from FetchStage.Asked d (S.state store.old)
        (S.durable store.new) (S.state store.new) (S.may store.new) (memory_of knows.new) result }
    ensures posts { from.client ≡ true → IfOk result (λ did. PostsInForm plan.targets knows.old.leader knows.new.leader did.posts) }
    ensures reads { IfOk result (λ did. AnswersOnce (fetch_message request.now ∷ []) knows.old.member.memory knows.new.member.memory did.posts) }
    ensures ends { (wanted : Asked) → IfOk result (λ did. EndsAsked wanted knows.old.leader knows.new.leader did.posts) }
    ensures target { IsTarget plan (S.state store.new) (S.durable store.new) knows.new }
    ensures stopped { TurnRuns result (S.state store.old) (S.state store.new) (S.durable store.old) (S.durable store.new) }
{
    if request.snapshot {
        return read_at(alloc, plan, store, knows, from, request, epoch);
    }
    match hear(plan, store, knows, epoch) {
        Ok(()) => read_at(alloc, plan, store, knows, from, request, epoch),
        Err(Stopped) => Err(stop_of(alloc, Halt::Stopped, None)),
    }
}

// It hears a Fetch that has no epoch: one is issued, and the lease is to cover it.
fn hear_new<S: Store, C: Clock>(
    alloc: Global,
    plan: TargetPlan,
    store: &mut S,
    clock: &mut C,
    knows: &mut Knows,
    from: ActorId,
    request: &FetchRequest,
) -> Result<Did, TargetStop>
    requires target { IsTarget plan (S.state store.old) (S.durable store.old) knows.old }
    requires running { (S.state store.old).stopped ≡ false }
    requires form { IsReadAsked request.now.read request.now.ep request.now.snapshot }
    requires new { request.now.ep ≡ None }
    requires enlisted { ForSome (S.durable store.old) (λ d. is_enlisted d (read_path request.now.read).cont ≡ true) }
    ensures turn { (reading : ℕ) × IfSome (C.next clock.old) (λ r. r ≡ reading) × ((d : Durable) → S.durable store.old ≡ Some d
        → FetchTurn plan (memory_of knows.old) reading request.now from FetchStage.Asked d (S.state store.old)
        (S.durable store.new) (S.state store.new) (S.may store.new) (memory_of knows.new) result) }
    ensures posts { from.client ≡ true → IfOk result (λ did. PostsInForm plan.targets knows.old.leader knows.new.leader did.posts) }
    ensures reads { IfOk result (λ did. AnswersOnce (fetch_message request.now ∷ []) knows.old.member.memory knows.new.member.memory did.posts) }
    ensures ends { (wanted : Asked) → IfOk result (λ did. EndsAsked wanted knows.old.leader knows.new.leader did.posts) }
    ensures target { IsTarget plan (S.state store.new) (S.durable store.new) knows.new }
    ensures stopped { TurnRuns result (S.state store.old) (S.state store.new) (S.durable store.old) (S.durable store.new) }
    ensures clock { AreReadings C.is_read (most_readings (is_some request.now.ep)) clock.old clock.new }
{
    match ready(plan, store, clock, knows, request.tracker, None) {
        Ok(Some(epoch)) => read_at(alloc, plan, store, knows, from, request, epoch),
        Ok(None) => {
            let reply = Reply::Outcome(Outcome::EpochsSpent);
            says(alloc, from, fetched(request, None, reply), None)
        }
        Err(Stopped) => Err(stop_of(alloc, Halt::Stopped, None)),
    }
}

/// It hears a Fetch. Its clock is read only where an epoch is issued.
///
/// # Errors
///
/// `Store` where the store stopped, and then the turn was cut short; else for want of memory.
pub fn hear_fetch<S: Store, C: Clock>(
    alloc: Global,
    plan: TargetPlan,
    store: &mut S,
    clock: &mut C,
    knows: &mut Knows,
    from: ActorId,
    request: &FetchRequest,
) -> Result<Did, TargetStop>
    requires target { IsTarget plan (S.state store.old) (S.durable store.old) knows.old }
    requires running { (S.state store.old).stopped ≡ false }
    requires form { IsReadAsked request.now.read request.now.ep request.now.snapshot }
    requires enlisted { ForSome (S.durable store.old) (λ d. is_enlisted d (read_path request.now.read).cont ≡ true) }
    ensures turn { (reading : ℕ) × IfSome (C.next clock.old) (λ r. r ≡ reading) × ((d : Durable) → S.durable store.old ≡ Some d
        → FetchTurn plan (memory_of knows.old) reading request.now from FetchStage.Asked d (S.state store.old)
        (S.durable store.new) (S.state store.new) (S.may store.new) (memory_of knows.new) result) }
    ensures posts { from.client ≡ true → IfOk result (λ did. PostsInForm plan.targets knows.old.leader knows.new.leader did.posts) }
    ensures reads { IfOk result (λ did. AnswersOnce (fetch_message request.now ∷ []) knows.old.member.memory knows.new.member.memory did.posts) }
    ensures ends { (wanted : Asked) → IfOk result (λ did. EndsAsked wanted knows.old.leader knows.new.leader did.posts) }
    ensures target { IsTarget plan (S.state store.new) (S.durable store.new) knows.new }
    ensures stopped { TurnRuns result (S.state store.old) (S.state store.new) (S.durable store.old) (S.durable store.new) }
    ensures clock { AreReadings C.is_read (most_readings (is_some request.now.ep)) clock.old clock.new }
{
    match request.ep {
        Some(epoch) => hear_known(alloc, plan, store, knows, from, request, epoch),
        None => hear_new(alloc, plan, store, clock, knows, from, request),
    }
}
