// Target 0 hears that a client wants a container aggregated.
ghost use Rattle.std.specs.Prelude.{◌≡◌, ◌≤◌, ◌/◌, ℕ, [], IfOk, IfSome, OnOk, OnErr, Some, None, true, false};
ghost use Rattle.std.specs.Option.{ForSome};
ghost use Rattle.base_messages.specs.declared.message.Message.TheVariants as asked;
ghost use Rattle.daos_model.specs.declared.durable.Durable.{Durable};
ghost use Rattle.daos_model.specs.Durables.{is_enlisted};
ghost use Rattle.snap_core.specs.Snaps.{remembered};
ghost use Rattle.vos_store.specs.Refusals.{says};
ghost use Rattle.world_base.specs.declared.target.TargetMemory.{TargetMemory};
ghost use Rattle.world_base.specs.Changes.{Kept};
ghost use Rattle.world_base.specs.Requests.{with_ticks};
ghost use Rattle.world_base.specs.Snapshots.{PruneStage};
ghost use Rattle.target_parts.specs.Knowing.{memory_of};
ghost use Rattle.target_parts.specs.Parts.{Runs, kept};
ghost use Rattle.target_parts.specs.Readings.{AreReadings, most_readings};
ghost use Rattle.target_parts.specs.Standing.{IsTarget};
ghost use Rattle.target_parts.specs.Stops.{stop_foreign, stop_store};
ghost use Rattle.target_snaps.specs.AggregateTurns.{AggregateComes, AggregateTurn};
ghost use Rattle.target_snaps.specs.Following.{IsWithin, MakesAsked, MakesInForm, RequestFollows, TellsNoAttempt};
ghost use Rattle.target_snaps.specs.HeldTurns.{IsSnapsOf};
ghost use Rattle.world_ended.specs.Asking.{Asked};
ghost use Rattle.world_ended.specs.world_letters.kinds.Loads.{AnswersOnce};

use crate::prunes::prune_at;
use crate::request::ContRequest;
use crate::settling::settle_decisions;
use crate::snaps::ended;
use base_messages::message::Message;
use base_outside::clock::Clock;
use base_types::epoch::Epoch;
use base_types::items::Items;
use base_types::outcome::Outcome;
use snap_core::snaps::SnapCore;
use std::alloc::Global;
use target_parts::epochs::ready;
use target_parts::halt::Halt;
use target_parts::knows::Knows;
use target_parts::stop::{TargetStop, stop_of};
use vos_store::refusal::Stopped;
use vos_store::store::Store;
use world_base::did::Did;
use world_base::target::TargetPlan;

// A container is aggregated at an epoch that the lease covers: what was decided is settled, the container is pruned, and
// the others are asked; where there is no other one, the client is told.
fn aggregate_at<S: Store>(
    alloc: Global,
    plan: TargetPlan,
    store: &mut S,
    knows: &mut Knows,
    snaps: &mut SnapCore,
    request: ContRequest,
    message: &Message,
    epoch: Epoch,
    number: u32,
) -> Result<Did, TargetStop>
    requires target { IsTarget plan (S.state store.old) (S.durable store.old) knows.old }
    requires running { (S.state store.old).stopped ≡ false }
    requires own { IsSnapsOf plan snaps.old }
    requires asks { (tracker : Epoch) × (message.now ≡ asked.Prune request.attempt request.cont (Some tracker) None) }
    requires here { ForSome (S.durable store.old) (λ d. (is_enlisted d request.cont ≡ true) × (epoch.0 / 256 ≤ d.lease)) }
    ensures turn { (m : TargetMemory) (reading : ℕ) (tracker : Epoch) (old : Kept) (d : Durable) → S.durable store.old ≡ Some d
        → with_ticks epoch m ≡ memory_of knows.old
        → AggregateComes plan (remembered m snaps.old) reading request tracker number old (PruneStage.Settling epoch m.leader.decided) (kept d (S.state store.old)) []
        → AggregateTurn plan (remembered m snaps.old) reading request tracker number old (S.durable store.new) (S.state store.new) (S.may store.new)
        (remembered (memory_of knows.new) snaps.new) result }
    ensures own { IsSnapsOf plan snaps.new }
    ensures target { IsTarget plan (S.state store.new) (S.durable store.new) knows.new }
    ensures stopped { Runs stop_store result (S.state store.old) (S.state store.new) (S.durable store.old) (S.durable store.new) }
    ensures native { says stop_foreign result ≡ false }
    ensures waiting { OnOk result (knows.new.leader.undecided ≡ knows.old.leader.undecided) }
    ensures member { OnOk result (knows.new.member ≡ knows.old.member) }
    ensures follows { IfOk result (λ did. RequestFollows plan.targets request snaps.old.collecting snaps.new.collecting did.posts) }
    ensures told { TellsNoAttempt result }
    ensures stays { OnErr result (snaps.new ≡ snaps.old) }
{
    let issued = Some((request.attempt, epoch));
    if let Err(Stopped) = settle_decisions(store, plan, knows) {
        return Err(stop_of(alloc, Halt::Stopped, issued));
    }
    let lines = prune_at(
        alloc,
        plan,
        store,
        knows,
        request.cont,
        epoch,
        number,
        issued,
    )?;
    let posts = snaps.begin(request.from, message, epoch)?;
    Ok(Did {
        posts,
        lines,
        issued,
    })
}

/// A client asks target 0 to aggregate a container, by the aggregation of a number that was drawn for it, and tells its
/// tracker: an epoch is issued, which the lease is to cover, what was decided is settled, the container is pruned as far
/// as nothing in it is unsettled, and the others are asked to prune it. Where there is no other one, the client is told.
///
/// # Errors
///
/// `Store` where the store stopped, and then the turn was cut; else for want of memory.
pub fn hear_aggregate<S: Store, C: Clock>(
    alloc: Global,
    plan: TargetPlan,
    store: &mut S,
    clock: &mut C,
    knows: &mut Knows,
    snaps: &mut SnapCore,
    request: ContRequest,
    tracker: Epoch,
    message: &Message,
    number: u32,
) -> Result<Did, TargetStop>
    requires target { IsTarget plan (S.state store.old) (S.durable store.old) knows.old }
    requires running { (S.state store.old).stopped ≡ false }
    requires own { IsSnapsOf plan snaps.old }
    requires asks { message.now ≡ asked.Prune request.attempt request.cont (Some tracker) None }
    requires enlisted { ForSome (S.durable store.old) (λ d. is_enlisted d request.cont ≡ true) }
    ensures turn { (reading : ℕ) × IfSome (C.next clock.old) (λ r. r ≡ reading) × ((d : Durable) → S.durable store.old ≡ Some d
        → AggregateTurn plan (remembered (memory_of knows.old) snaps.old) reading request tracker number (kept d (S.state store.old))
        (S.durable store.new) (S.state store.new) (S.may store.new) (remembered (memory_of knows.new) snaps.new) result) }
    ensures own { IsSnapsOf plan snaps.new }
    ensures target { IsTarget plan (S.state store.new) (S.durable store.new) knows.new }
    ensures stopped { Runs stop_store result (S.state store.old) (S.state store.new) (S.durable store.old) (S.durable store.new) }
    ensures native { says stop_foreign result ≡ false }
    ensures waiting { OnOk result (knows.new.leader.undecided ≡ knows.old.leader.undecided) }
    ensures reads { IfOk result (λ did. AnswersOnce [] knows.old.member.memory knows.new.member.memory did.posts) }
    ensures posts { request.from.client ≡ true → IfOk result (λ did. MakesInForm plan.targets snaps.old.collecting snaps.new.collecting did.posts) }
    ensures ends { (given : Asked) → given request.attempt ≡ true → IfOk result (λ did. MakesAsked given snaps.old.collecting snaps.new.collecting did.posts) }
    ensures told { TellsNoAttempt result }
    ensures within { OnErr result (IsWithin snaps.new.collecting snaps.old.collecting) }
    ensures clock { AreReadings C.is_read (most_readings false) clock.old clock.new }
{
    match ready(plan, store, clock, knows, tracker, None) {
        Ok(Some(epoch)) => aggregate_at(
            alloc, plan, store, knows, snaps, request, message, epoch, number,
        ),
        Ok(None) => ended(
            alloc,
            request,
            None,
            Outcome::EpochsSpent,
            Items::new(alloc),
            None,
        ),
        Err(Stopped) => Err(stop_of(alloc, Halt::Stopped, None)),
    }
}
