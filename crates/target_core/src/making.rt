// A target hears what makes a snapshot or an aggregation with other targets.
ghost use Rattle.std.specs.Prelude.{◌≡◌, ◌<◌, ℕ, Option, IfOk, IfSome, OnErr, OnOk, Some, true, false, [], ◌∷◌};
ghost use Rattle.base_messages.specs.declared.message.Message.TheVariants as asked;
ghost use Rattle.std.specs.Option.{ForSome};
ghost use Rattle.daos_model.specs.declared.durable.Durable.{Durable};
ghost use Rattle.daos_model.specs.Durables.{is_enlisted};
ghost use Rattle.snap_core.specs.Snaps.{remembered};
ghost use Rattle.vos_store.specs.Refusals.{says};
ghost use Rattle.world_base.specs.Stops.{is_prune_message};
ghost use Rattle.target_parts.specs.world_contents.posts.Forms.{TurnsPostInForm};
ghost use Rattle.target_reads.specs.world_ended.Asking.{Asked, GoesWith, TurnsEndAsked};
ghost use Rattle.target_reads.specs.world_letters.kinds.Loads.{AnswersOnce};
ghost use Rattle.target_parts.specs.Knowing.{memory_of};
ghost use Rattle.target_parts.specs.Parts.{Runs};
ghost use Rattle.target_parts.specs.Readings.{IsReadBy};
ghost use Rattle.target_parts.specs.Standing.{IsTarget};
ghost use Rattle.target_parts.specs.Stops.{stop_foreign, stop_store};
ghost use Rattle.target_snaps.specs.Following.{IsWithin, TellsNoAttempt};
ghost use Rattle.target_snaps.specs.HeldTurns.{AreFrozenHere, IsSnapsOf};
ghost use Rattle.target_core.specs.Targets.{CanHear, HasFormOfMaking, HearsOrStops, has_epoch, is_held, is_making, is_of_client};

use base_messages::actor::ActorId;
use base_messages::message::Message;
use base_outside::clock::Clock;
use base_types::epoch::{Epoch, TargetId};
use base_types::id::{AttemptId, ContId};
use snap_core::snaps::SnapCore;
use std::alloc::Global;
use target_parts::knows::Knows;
use target_parts::stop::TargetStop;
use target_snaps::aggregates::hear_aggregate;
use target_snaps::freezes::hear_freeze;
use target_snaps::helds::hear_held;
use target_snaps::losses::hear_collection_reset;
use target_snaps::prunes::hear_prune;
use target_snaps::request::ContRequest;
use target_snaps::snaps::hear_snap;
use vos_store::store::Store;
use world_base::did::Did;
use world_base::target::TargetPlan;

// The number of a target, of at most 64.
fn target_of(from: ActorId) -> TargetId
    requires { from.number < 64 }
    ensures { result ≡ from.number }
{
    from.number as u8
}

// A Prune: a client's, or target 0's.
fn hear_any_prune<S: Store, C: Clock>(
    alloc: Global,
    plan: TargetPlan,
    store: &mut S,
    clock: &mut C,
    knows: &mut Knows,
    snaps: &mut SnapCore,
    request: ContRequest,
    message: &Message,
    tracker: Option<Epoch>,
    epoch: Option<Epoch>,
    number: u32,
) -> Result<Did, TargetStop>
    requires target { IsTarget plan (S.state store.old) (S.durable store.old) knows.old }
    requires running { (S.state store.old).stopped ≡ false }
    requires own { IsSnapsOf plan snaps.old }
    requires asks { message.now ≡ asked.Prune request.attempt request.cont tracker epoch }
    requires form { HasFormOfMaking (asked.Prune request.attempt request.cont tracker epoch) }
    requires here { ForSome (S.durable store.old) (λ d. is_enlisted d request.cont ≡ true) }
    ensures turn { (reading : ℕ) × IfSome (C.next clock.old) (λ r. r ≡ reading) × ((d : Durable) → S.durable store.old ≡ Some d
        → HearsOrStops number plan (remembered (memory_of knows.old) snaps.old) reading request.from (asked.Prune request.attempt request.cont tracker epoch) d (S.state store.old)
        (S.durable store.new) (S.state store.new) (S.may store.new) (remembered (memory_of knows.new) snaps.new) result) }
    ensures posts { is_of_client (asked.Prune request.attempt request.cont tracker epoch) ≡ request.from.client → IfOk result (λ did. TurnsPostInForm plan.targets (remembered (memory_of knows.old) snaps.old) (remembered (memory_of knows.new) snaps.new) did.posts) }
    ensures reads { IfOk result (λ did. AnswersOnce [] knows.old.member.memory knows.new.member.memory did.posts) }
    ensures ends { (given : Asked) → given request.attempt ≡ true → IfOk result (λ did. TurnsEndAsked given (remembered (memory_of knows.old) snaps.old) (remembered (memory_of knows.new) snaps.new) did.posts) }
    ensures told { TellsNoAttempt result }
    ensures within { OnErr result (IsWithin snaps.new.collecting snaps.old.collecting) }
    ensures own { IsSnapsOf plan snaps.new }
    ensures target { IsTarget plan (S.state store.new) (S.durable store.new) knows.new }
    ensures runs { Runs stop_store result (S.state store.old) (S.state store.new) (S.durable store.old) (S.durable store.new) }
    ensures native { says stop_foreign result ≡ false }
    ensures clock { IsReadBy C.is_read (has_epoch (asked.Prune request.attempt request.cont tracker epoch)) result clock.old clock.new }
{
    match tracker {
        Some(tracker) => hear_aggregate(
            alloc, plan, store, clock, knows, snaps, request, tracker, message, number,
        ),
        None => match epoch {
            Some(epoch) => hear_prune(alloc, plan, store, knows, request, epoch, number),
            None => unreachable!(),
        },
    }
}

/// It hears such a message; the number is one drawn for an aggregation.
pub(crate) fn hear_making<S: Store, C: Clock>(
    alloc: Global,
    plan: TargetPlan,
    store: &mut S,
    clock: &mut C,
    knows: &mut Knows,
    snaps: &mut SnapCore,
    from: ActorId,
    message: &Message,
    number: u32,
) -> Result<Did, TargetStop>
    requires target { IsTarget plan (S.state store.old) (S.durable store.old) knows.old }
    requires running { (S.state store.old).stopped ≡ false }
    requires own { IsSnapsOf plan snaps.old }
    requires frozen { ForSome (S.durable store.old) (AreFrozenHere snaps.old) }
    requires sender { is_held message.now ≡ true → from.number < 64 }
    requires form { HasFormOfMaking message.now }
    requires here { ForSome (S.durable store.old) (CanHear plan message.now) }
    ensures turn { (reading : ℕ) × IfSome (C.next clock.old) (λ r. r ≡ reading) × ((n : ℕ) → (is_prune_message message.now ≡ true → number ≡ n) → (d : Durable) → S.durable store.old ≡ Some d
        → HearsOrStops n plan (remembered (memory_of knows.old) snaps.old) reading from message.now d (S.state store.old)
        (S.durable store.new) (S.state store.new) (S.may store.new) (remembered (memory_of knows.new) snaps.new) result) }
    ensures posts { is_of_client message.now ≡ from.client → IfOk result (λ did. TurnsPostInForm plan.targets (remembered (memory_of knows.old) snaps.old) (remembered (memory_of knows.new) snaps.new) did.posts) }
    ensures reads { IfOk result (λ did. AnswersOnce [] knows.old.member.memory knows.new.member.memory did.posts) }
    ensures ends { (given : Asked) → GoesWith given message.now → IfOk result (λ did. TurnsEndAsked given (remembered (memory_of knows.old) snaps.old) (remembered (memory_of knows.new) snaps.new) did.posts) }
    ensures told { TellsNoAttempt result }
    ensures within { OnErr result (IsWithin snaps.new.collecting snaps.old.collecting) }
    ensures own { IsSnapsOf plan snaps.new }
    ensures target { IsTarget plan (S.state store.new) (S.durable store.new) knows.new }
    ensures runs { Runs stop_store result (S.state store.old) (S.state store.new) (S.durable store.old) (S.durable store.new) }
    ensures native { says stop_foreign result ≡ false }
    ensures clock { IsReadBy C.is_read (has_epoch message.now) result clock.old clock.new }
{
    match message {
        Message::Snap {
            attempt,
            cont,
            name,
            tracker,
        } => {
            let request = ContRequest {
                from,
                attempt: *attempt,
                cont: *cont,
            };
            hear_snap(
                alloc, plan, store, clock, knows, snaps, request, *tracker, name, message,
            )
        }
        Message::Freeze {
            attempt,
            cont,
            epoch,
        } => {
            let request = ContRequest {
                from,
                attempt: *attempt,
                cont: *cont,
            };
            hear_freeze(alloc, plan, store, knows, request, *epoch)
        }
        Message::Held { .. } => hear_held(
            alloc,
            plan,
            store,
            knows,
            snaps,
            target_of(from),
            message,
        ),
        Message::Prune {
            attempt,
            cont,
            tracker,
            epoch,
        } => {
            let request = ContRequest {
                from,
                attempt: *attempt,
                cont: *cont,
            };
            hear_any_prune(
                alloc, plan, store, clock, knows, snaps, request, message, *tracker, *epoch, number,
            )
        }
        Message::Reset {
            target,
            down,
            message,
        } => hear_collection_reset(
            alloc,
            plan,
            store,
            knows,
            snaps,
            *target,
            *down,
            message.get(),
        ),
        _ => unreachable!(),
    }
}
