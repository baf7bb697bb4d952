// A target hears a message.
ghost use Rattle.std.specs.Prelude.{◌≡◌, ◌≤◌, ◌<◌, ℕ, IfOk, IfSome, OnErr, Some, true, false, [], ◌∷◌};
ghost use Rattle.target_reads.specs.world_ended.Asking.{Asked, EndsAsked, GoesWith, TurnsEndAsked};
ghost use Rattle.target_reads.specs.world_letters.kinds.Loads.{AnswersOnce};
ghost use Rattle.std.specs.Option.{ForSome};
ghost use Rattle.daos_model.specs.declared.durable.Durable.{Durable};
ghost use Rattle.target_parts.specs.world_contents.posts.Forms.{PostsInForm, TurnsPostInForm};
ghost use Rattle.snap_core.specs.Snaps.{SnapOf, remembered};
ghost use Rattle.world_base.specs.Stops.{is_prune_message};
ghost use Rattle.vos_store.specs.Refusals.{says};
ghost use Rattle.target_parts.specs.Knowing.{memory_of};
ghost use Rattle.target_core.specs.Targets.{CanHear, HasForm, HearsOrStops, IsInForm, has_epoch, is_collecting, is_held, is_making, is_of_client, is_of_command};
ghost use Rattle.target_parts.specs.Parts.{Runs};
ghost use Rattle.target_parts.specs.Standing.{IsTarget, TurnRuns};
ghost use Rattle.target_parts.specs.Stops.{IsSilent, stop_foreign, stop_store};
ghost use Rattle.target_snaps.specs.Following.{IsWithin, TellsNoAttempt};
ghost use Rattle.target_snaps.specs.HeldTurns.{AreFrozenHere, IsSnapsOf};
ghost use Rattle.target_parts.specs.Readings.{IsReadBy};

use crate::after_stops::{hear_after_stops, is_after_stops};
use crate::commits::hear_any_commit;
use crate::making::hear_making;
use base_messages::actor::ActorId;
use base_messages::message::Message;
use base_outside::clock::Clock;
use snap_core::snaps::SnapCore;
use std::alloc::Global;
use target_parts::knows::Knows;
use target_parts::stop::TargetStop;
use target_reads::again::hear_verdict;
use target_reads::fetches::hear_fetch;
use target_resync::below::dtx::acks::{hear_ack, hear_marked};
use target_resync::below::dtx::marks::hear_mark;
use target_resync::below::dtx::queries::hear_query;
use target_writes::prepares::hear_prepare;
use vos_store::store::Store;
use world_base::did::Did;
use world_base::request::{CommitRequest, FetchRequest, PrepareRequest};
use world_base::target::TargetPlan;

// What a client's command asks.
fn hear_client<S: Store, C: Clock>(
    alloc: Global,
    plan: TargetPlan,
    store: &mut S,
    clock: &mut C,
    knows: &mut Knows,
    from: ActorId,
    message: Message,
) -> Result<Did, TargetStop>
    requires target { IsTarget plan (S.state store.old) (S.durable store.old) knows.old }
    requires running { (S.state store.old).stopped ≡ false }
    requires asked { is_of_command message ≡ true }
    requires form { HasForm plan message }
    requires here { ForSome (S.durable store.old) (CanHear plan message) }
    ensures turn { (reading : ℕ) × IfSome (C.next clock.old) (λ r. r ≡ reading) × ((n : ℕ) (snaps : SnapOf) (d : Durable) → S.durable store.old ≡ Some d
        → HearsOrStops n plan (remembered (memory_of knows.old) snaps) reading from message d (S.state store.old)
        (S.durable store.new) (S.state store.new) (S.may store.new) (remembered (memory_of knows.new) snaps) result) }
    ensures posts { from.client ≡ true → IfOk result (λ did. PostsInForm plan.targets knows.old.leader knows.new.leader did.posts) }
    ensures reads { IfOk result (λ did. AnswersOnce (message ∷ []) knows.old.member.memory knows.new.member.memory did.posts) }
    ensures ends { (asked : Asked) → GoesWith asked message → IfOk result (λ did. EndsAsked asked knows.old.leader knows.new.leader did.posts) }
    ensures target { IsTarget plan (S.state store.new) (S.durable store.new) knows.new }
    ensures stopped { TurnRuns result (S.state store.old) (S.state store.new) (S.durable store.old) (S.durable store.new) }
    ensures clock { IsReadBy C.is_read (has_epoch message) result clock.old clock.new }
{
    match message {
        Message::Fetch {
            attempt,
            op,
            group,
            ep,
            first,
            tracker,
            read,
            snapshot,
        } => {
            let request = FetchRequest {
                attempt,
                op,
                group,
                ep,
                first,
                tracker,
                read,
                snapshot,
            };
            hear_fetch(alloc, plan, store, clock, knows, from, &request)
        }
        Message::Commit {
            attempt,
            ep,
            first,
            tracker,
            writes,
        } => {
            let request = CommitRequest {
                attempt,
                ep,
                first,
                tracker,
                writes,
            };
            hear_any_commit(alloc, plan, store, clock, knows, from, &request)
        }
        _ => unreachable!(),
    }
}

// What another target tells or asks.
fn hear_target<S: Store>(
    alloc: Global,
    plan: TargetPlan,
    store: &mut S,
    knows: &mut Knows,
    from: ActorId,
    message: Message,
) -> Result<Did, TargetStop>
    requires target { IsTarget plan (S.state store.old) (S.durable store.old) knows.old }
    requires running { (S.state store.old).stopped ≡ false }
    requires told { is_of_command message ≡ false }
    requires form { HasForm plan message }
    requires here { ForSome (S.durable store.old) (CanHear plan message) }
    ensures turn { (n : ℕ) (snaps : SnapOf) (d : Durable) → S.durable store.old ≡ Some d → (reading : ℕ)
        → HearsOrStops n plan (remembered (memory_of knows.old) snaps) reading from message d (S.state store.old)
        (S.durable store.new) (S.state store.new) (S.may store.new) (remembered (memory_of knows.new) snaps) result }
    ensures posts { from.client ≡ false → IfOk result (λ did. PostsInForm plan.targets knows.old.leader knows.new.leader did.posts) }
    ensures reads { IfOk result (λ did. AnswersOnce (message ∷ []) knows.old.member.memory knows.new.member.memory did.posts) }
    ensures ends { (asked : Asked) → GoesWith asked message → IfOk result (λ did. EndsAsked asked knows.old.leader knows.new.leader did.posts) }
    ensures target { IsTarget plan (S.state store.new) (S.durable store.new) knows.new }
    ensures stopped { TurnRuns result (S.state store.old) (S.state store.new) (S.durable store.old) (S.durable store.new) }
{
    match message {
        Message::Prepare {
            entry,
            first,
            writes,
            inc,
        } => {
            let request = PrepareRequest {
                entry,
                first,
                writes,
                inc,
            };
            hear_prepare(alloc, plan, store, knows, &request)
        }
        Message::Ack {
            attempt,
            inc,
            refusal,
        } => hear_ack(
            alloc,
            plan,
            store,
            knows,
            from.number,
            attempt,
            inc,
            &refusal,
        ),
        Message::Mark { inc, marks } => {
            hear_mark(alloc, plan, store, knows, from, inc, marks.as_slice())
        }
        Message::Marked { inc, attempts } => {
            hear_marked(
                alloc,
                plan,
                store,
                knows,
                from.number,
                inc,
                attempts.as_slice(),
            )
        }
        Message::Query { attempt, ask } => {
            hear_query(alloc, plan, store, knows, from, attempt, ask)
        }
        Message::Verdict {
            attempt,
            ask,
            verdict,
            ..
        } => hear_verdict(alloc, plan, store, knows, attempt, ask, verdict),
        _ => unreachable!(),
    }
}

// Whether a message is what a client's command asks.
fn is_of_command(message: &Message) -> bool
    ensures { result ≡ is_of_command message.now }
{
    matches!(message, Message::Fetch { .. } | Message::Commit { .. })
}

// What another target tells or asks, or what comes of stops.
fn hear_other<S: Store>(
    alloc: Global,
    plan: TargetPlan,
    store: &mut S,
    knows: &mut Knows,
    from: ActorId,
    message: Message,
) -> Result<Did, TargetStop>
    requires target { IsTarget plan (S.state store.old) (S.durable store.old) knows.old }
    requires running { (S.state store.old).stopped ≡ false }
    requires told { is_of_command message ≡ false }
    requires made { is_making message ≡ false }
    requires form { IsInForm plan message }
    requires here { ForSome (S.durable store.old) (CanHear plan message) }
    ensures turn { (n : ℕ) (snaps : SnapOf) (d : Durable) → S.durable store.old ≡ Some d → (reading : ℕ)
        → HearsOrStops n plan (remembered (memory_of knows.old) snaps) reading from message d (S.state store.old)
        (S.durable store.new) (S.state store.new) (S.may store.new) (remembered (memory_of knows.new) snaps) result }
    ensures posts { is_of_client message ≡ from.client → IfOk result (λ did. PostsInForm plan.targets knows.old.leader knows.new.leader did.posts) }
    ensures reads { IfOk result (λ did. AnswersOnce (message ∷ []) knows.old.member.memory knows.new.member.memory did.posts) }
    ensures ends { (asked : Asked) → GoesWith asked message → IfOk result (λ did. EndsAsked asked knows.old.leader knows.new.leader did.posts) }
    ensures target { IsTarget plan (S.state store.new) (S.durable store.new) knows.new }
    ensures stopped { TurnRuns result (S.state store.old) (S.state store.new) (S.durable store.old) (S.durable store.new) }
{
    if is_after_stops(&message) {
        hear_after_stops(alloc, plan, store, knows, from, message)
    } else {
        hear_target(alloc, plan, store, knows, from, message)
    }
}

// Whether a message asks for a snapshot or an aggregation, or answers that.
fn is_making(message: &Message) -> bool
    ensures { result ≡ is_making message.now }
{
    match message {
        Message::Snap { .. }
        | Message::Freeze { .. }
        | Message::Held { .. }
        | Message::Prune { .. } => true,
        Message::Reset { message, .. } => is_collecting(message.get()),
        _ => false,
    }
}

// Whether a message asks for a freeze, or for an aggregation.
fn is_collecting(message: &Message) -> bool
    ensures { result ≡ is_collecting message.now }
{
    matches!(message, Message::Freeze { .. } | Message::Prune { .. })
}

// A message by which nothing is made.
fn hear_led<S: Store, C: Clock>(
    alloc: Global,
    plan: TargetPlan,
    store: &mut S,
    clock: &mut C,
    knows: &mut Knows,
    from: ActorId,
    message: Message,
) -> Result<Did, TargetStop>
    requires target { IsTarget plan (S.state store.old) (S.durable store.old) knows.old }
    requires running { (S.state store.old).stopped ≡ false }
    requires made { is_making message ≡ false }
    requires form { IsInForm plan message }
    requires here { ForSome (S.durable store.old) (CanHear plan message) }
    ensures turn { (reading : ℕ) × IfSome (C.next clock.old) (λ r. r ≡ reading) × ((n : ℕ) (snaps : SnapOf) (d : Durable) → S.durable store.old ≡ Some d
        → HearsOrStops n plan (remembered (memory_of knows.old) snaps) reading from message d (S.state store.old)
        (S.durable store.new) (S.state store.new) (S.may store.new) (remembered (memory_of knows.new) snaps) result) }
    ensures posts { is_of_client message ≡ from.client → IfOk result (λ did. PostsInForm plan.targets knows.old.leader knows.new.leader did.posts) }
    ensures reads { IfOk result (λ did. AnswersOnce (message ∷ []) knows.old.member.memory knows.new.member.memory did.posts) }
    ensures ends { (asked : Asked) → GoesWith asked message → IfOk result (λ did. EndsAsked asked knows.old.leader knows.new.leader did.posts) }
    ensures target { IsTarget plan (S.state store.new) (S.durable store.new) knows.new }
    ensures stopped { TurnRuns result (S.state store.old) (S.state store.new) (S.durable store.old) (S.durable store.new) }
    ensures clock { IsReadBy C.is_read (has_epoch message) result clock.old clock.new }
{
    if is_of_command(&message) {
        hear_client(alloc, plan, store, clock, knows, from, message)
    } else {
        hear_other(alloc, plan, store, knows, from, message)
    }
}

/// It hears a message.
pub(crate) fn hear_message<S: Store, C: Clock>(
    alloc: Global,
    plan: TargetPlan,
    store: &mut S,
    clock: &mut C,
    knows: &mut Knows,
    snaps: &mut SnapCore,
    from: ActorId,
    message: Message,
    number: u32,
) -> Result<Did, TargetStop>
    requires target { IsTarget plan (S.state store.old) (S.durable store.old) knows.old }
    requires running { (S.state store.old).stopped ≡ false }
    requires own { IsSnapsOf plan snaps.old }
    requires frozen { ForSome (S.durable store.old) (AreFrozenHere snaps.old) }
    requires sender { is_held message ≡ true → from.number < 64 }
    requires form { IsInForm plan message }
    requires here { ForSome (S.durable store.old) (CanHear plan message) }
    ensures turn { (reading : ℕ) × IfSome (C.next clock.old) (λ r. r ≡ reading) × ((n : ℕ) → (is_prune_message message ≡ true → number ≡ n) → (d : Durable) → S.durable store.old ≡ Some d
        → HearsOrStops n plan (remembered (memory_of knows.old) snaps.old) reading from message d (S.state store.old)
        (S.durable store.new) (S.state store.new) (S.may store.new) (remembered (memory_of knows.new) snaps.new) result) }
    ensures posts { is_of_client message ≡ from.client → IfOk result (λ did. TurnsPostInForm plan.targets (remembered (memory_of knows.old) snaps.old) (remembered (memory_of knows.new) snaps.new) did.posts) }
    ensures reads { IfOk result (λ did. AnswersOnce (message ∷ []) knows.old.member.memory knows.new.member.memory did.posts) }
    ensures ends { (asked : Asked) → GoesWith asked message → IfOk result (λ did. TurnsEndAsked asked (remembered (memory_of knows.old) snaps.old) (remembered (memory_of knows.new) snaps.new) did.posts) }
    ensures told { TellsNoAttempt result }
    ensures silent { is_making message ≡ false → IsSilent result }
    ensures within { OnErr result (IsWithin snaps.new.collecting snaps.old.collecting) }
    ensures own { IsSnapsOf plan snaps.new }
    ensures target { IsTarget plan (S.state store.new) (S.durable store.new) knows.new }
    ensures runs { Runs stop_store result (S.state store.old) (S.state store.new) (S.durable store.old) (S.durable store.new) }
    ensures native { says stop_foreign result ≡ false }
    ensures clock { IsReadBy C.is_read (has_epoch message) result clock.old clock.new }
{
    if is_making(&message) {
        hear_making(
            alloc, plan, store, clock, knows, snaps, from, &message, number,
        )
    } else {
        hear_led(alloc, plan, store, clock, knows, from, message)
    }
}
