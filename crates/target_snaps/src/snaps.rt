// Target 0 hears a client's Snap.
ghost use Rattle.std.specs.Prelude.{◌≡◌, ℕ, List, [], IfOk, IfErr, IfSome, OnOk, OnErr, Option, Some, None, true, false};
ghost use Rattle.std.specs.Option.{ForSome};
ghost use Rattle.base_messages.specs.declared.message.Message.TheVariants as asked;
ghost use Rattle.daos_model.specs.declared.durable.Durable.{Durable};
ghost use Rattle.daos_model.specs.Attempts.{tries};
ghost use Rattle.daos_model.specs.Durables.{is_enlisted, is_frozen};
ghost use Rattle.snap_core.specs.Snaps.{remembered};
ghost use Rattle.vos_store.specs.Conditions.{CanFreeze};
ghost use Rattle.vos_store.specs.Refusals.{says};
ghost use Rattle.world_base.specs.declared.target.Collection.{Collection};
ghost use Rattle.world_base.specs.declared.target.TargetMemory.{TargetMemory};
ghost use Rattle.world_base.specs.Changes.{Kept};
ghost use Rattle.world_base.specs.Requests.{request_epoch, with_ticks};
ghost use Rattle.world_base.specs.Snapshots.{FreezeStage, follows, is_held_by_all, to_actor};
ghost use Rattle.world_ended.specs.Asking.{Asked};
ghost use Rattle.world_ended.specs.world_letters.kinds.Loads.{AnswersOnce};
ghost use Rattle.target_parts.specs.Knowing.{memory_of};
ghost use Rattle.target_parts.specs.Parts.{Runs, kept};
ghost use Rattle.target_parts.specs.Readings.{AreReadings, most_readings};
ghost use Rattle.target_parts.specs.Standing.{IsTarget};
ghost use Rattle.target_parts.specs.Stops.{stop_foreign, stop_memory, stop_store};
ghost use Rattle.target_snaps.specs.FreezeTurns.{freeze_lines};
ghost use Rattle.target_snaps.specs.Following.{IsWithin, MakesAsked, MakesInForm, RequestFollows, TellsNoAttempt};
ghost use Rattle.target_snaps.specs.HeldTurns.{IsSnapsOf};
ghost use Rattle.target_snaps.specs.SnapTurns.{SnapComes, SnapTurn};

use crate::alone::is_alone;
use crate::freezing::{Froze, freeze_at};
use crate::helds::create_at;
use crate::request::ContRequest;
use crate::tells::{freeze_lines, refusal_by, tells};
use base_messages::message::Message;
use base_outside::clock::Clock;
use base_types::epoch::Epoch;
use base_types::id::AttemptId;
use base_types::items::Items;
use base_types::key::Key;
use base_types::outcome::Outcome;
use base_types::report::{Line, Lines};
use snap_core::snaps::SnapCore;
use std::alloc::Global;
use target_parts::epochs::ready;
use target_parts::halt::Halt;
use target_parts::knows::Knows;
use target_parts::stop::{TargetStop, stop_of};
use vos_store::refusal::Stopped;
use vos_store::store::Store;
use world_base::did::Did;
use world_base::target::TargetPlan;

/// The client is told how its attempt ended, with lines, and perhaps an epoch that was issued.
pub(crate) fn ended(
    alloc: Global,
    request: ContRequest,
    ep: Option<Epoch>,
    outcome: Outcome,
    lines: Lines,
    issued: Option<(AttemptId, Epoch)>,
) -> Result<Did, TargetStop>
    ensures did { IfOk result (λ did. did ≡ follows (to_actor request.from (asked.Ended request.attempt ep outcome)) lines issued) }
    ensures wanting { IfErr result (λ stop. stop ≡ stop_memory) }
{
    let attempt = request.attempt;
    let message = Message::Ended {
        attempt,
        ep,
        outcome,
    };
    tells(alloc, request.from, message, lines, issued)
}

// The only target has frozen a snapshot: it is created, and then the client is told.
fn snap_alone<S: Store>(
    alloc: Global,
    plan: TargetPlan,
    store: &mut S,
    knows: &Knows,
    request: ContRequest,
    name: &Key,
    epoch: Epoch,
    lines: Lines,
) -> Result<Did, TargetStop>
    requires target { IsTarget plan (S.state store.old) (S.durable store.old) knows.now }
    requires running { (S.state store.old).stopped ≡ false }
    requires alone { is_held_by_all plan 0 ≡ true }
    requires lines { tries lines ≡ [] }
    requires frozen { ForSome (S.durable store.old) (λ d. is_frozen d request.cont epoch ≡ true) }
    ensures turn { (m : TargetMemory) (reading : ℕ) (tracker : Epoch) (old : Kept) (d : Durable) → S.durable store.old ≡ Some d
        → SnapComes plan m reading request tracker old (FreezeStage.Frozen epoch lines) (kept d (S.state store.old)) lines
        → SnapTurn plan m reading request tracker name.now old (S.durable store.new) (S.state store.new) (S.may store.new) (with_ticks epoch m) result }
    ensures target { IsTarget plan (S.state store.new) (S.durable store.new) knows.now }
    ensures stopped { Runs stop_store result (S.state store.old) (S.state store.new) (S.durable store.old) (S.durable store.new) }
    ensures native { says stop_foreign result ≡ false }
    ensures follows { (old : List Collection) → IfOk result (λ did. RequestFollows plan.targets request old old did.posts) }
    ensures told { TellsNoAttempt result }
{
    let _plan = plan;
    let _knows = knows;
    let issued = Some((request.attempt, epoch));
    if let Err(Stopped) = create_at(store, request.cont, epoch) {
        return Err(TargetStop::Store { issued, lines });
    }
    let cont = request.cont;
    let name = name.copy()?;
    let mut shown = lines;
    shown.push(Line::Snapshot { name, cont, epoch })?;
    ended(
        alloc,
        request,
        Some(epoch),
        Outcome::Committed,
        shown,
        issued,
    )
}

// A snapshot is frozen: the others are asked to freeze it too; where there is no other one, it is created.
fn snap_frozen<S: Store>(
    alloc: Global,
    plan: TargetPlan,
    store: &mut S,
    knows: &Knows,
    snaps: &mut SnapCore,
    request: ContRequest,
    name: &Key,
    message: &Message,
    epoch: Epoch,
    froze: Froze,
) -> Result<Did, TargetStop>
    requires target { IsTarget plan (S.state store.old) (S.durable store.old) knows.now }
    requires running { (S.state store.old).stopped ≡ false }
    requires own { IsSnapsOf plan snaps.old }
    requires asks { (tracker : Epoch) × (message.now ≡ asked.Snap request.attempt request.cont name.now tracker) }
    requires frozen { ForSome (S.durable store.old) (λ d. is_frozen d request.cont epoch ≡ true) }
    ensures turn { (m : TargetMemory) (reading : ℕ) (tracker : Epoch) (old : Kept) (d : Durable) → S.durable store.old ≡ Some d
        → SnapComes plan (remembered m snaps.old) reading request tracker old (FreezeStage.Frozen epoch (freeze_lines plan request.cont epoch froze))
        (kept d (S.state store.old)) (freeze_lines plan request.cont epoch froze)
        → SnapTurn plan (remembered m snaps.old) reading request tracker name.now old (S.durable store.new) (S.state store.new) (S.may store.new)
        (remembered (with_ticks epoch m) snaps.new) result }
    ensures own { IsSnapsOf plan snaps.new }
    ensures target { IsTarget plan (S.state store.new) (S.durable store.new) knows.now }
    ensures stopped { Runs stop_store result (S.state store.old) (S.state store.new) (S.durable store.old) (S.durable store.new) }
    ensures native { says stop_foreign result ≡ false }
    ensures follows { IfOk result (λ did. RequestFollows plan.targets request snaps.old.collecting snaps.new.collecting did.posts) }
    ensures told { TellsNoAttempt result }
    ensures stays { OnErr result (snaps.new ≡ snaps.old) }
{
    let lines = freeze_lines(alloc, plan, request.cont, epoch, froze)?;
    if is_alone(plan) {
        return snap_alone(alloc, plan, store, knows, request, name, epoch, lines);
    }
    let posts = snaps.begin(request.from, message, epoch)?;
    Ok(Did {
        posts,
        lines,
        issued: Some((request.attempt, epoch)),
    })
}

// A snapshot is made at an epoch that the lease covers.
fn snap_at<S: Store>(
    alloc: Global,
    plan: TargetPlan,
    store: &mut S,
    knows: &Knows,
    snaps: &mut SnapCore,
    request: ContRequest,
    name: &Key,
    message: &Message,
    epoch: Epoch,
) -> Result<Did, TargetStop>
    requires target { IsTarget plan (S.state store.old) (S.durable store.old) knows.now }
    requires running { (S.state store.old).stopped ≡ false }
    requires own { IsSnapsOf plan snaps.old }
    requires asks { (tracker : Epoch) × (message.now ≡ asked.Snap request.attempt request.cont name.now tracker) }
    requires can { ForSome (S.durable store.old) (CanFreeze request.cont epoch) }
    ensures turn { (m : TargetMemory) (reading : ℕ) (tracker : Epoch) (old : Kept) (d : Durable) → S.durable store.old ≡ Some d
        → request_epoch plan (remembered m snaps.old) reading tracker None ≡ Some epoch
        → SnapComes plan (remembered m snaps.old) reading request tracker old (FreezeStage.Freezing epoch) (kept d (S.state store.old)) []
        → SnapTurn plan (remembered m snaps.old) reading request tracker name.now old (S.durable store.new) (S.state store.new) (S.may store.new)
        (remembered (with_ticks epoch m) snaps.new) result }
    ensures own { IsSnapsOf plan snaps.new }
    ensures target { IsTarget plan (S.state store.new) (S.durable store.new) knows.now }
    ensures stopped { Runs stop_store result (S.state store.old) (S.state store.new) (S.durable store.old) (S.durable store.new) }
    ensures native { says stop_foreign result ≡ false }
    ensures follows { IfOk result (λ did. RequestFollows plan.targets request snaps.old.collecting snaps.new.collecting did.posts) }
    ensures told { TellsNoAttempt result }
    ensures stays { OnErr result (snaps.new ≡ snaps.old) }
{
    let issued = Some((request.attempt, epoch));
    let froze = match freeze_at(store, request.cont, epoch) {
        Ok(froze) => froze,
        Err(halt) => return Err(stop_of(alloc, halt, issued)),
    };
    match refusal_by(plan, froze) {
        Some(outcome) => ended(
            alloc,
            request,
            Some(epoch),
            outcome,
            Items::new(alloc),
            issued,
        ),
        None => snap_frozen(
            alloc, plan, store, knows, snaps, request, name, message, epoch, froze,
        ),
    }
}

/// A client asks target 0 for a snapshot of a container by a name, and tells its tracker: an epoch is issued, which the
/// lease is to cover, the container is frozen, unless that is refused, and the others are asked to freeze it. Where there
/// is no other one, the snapshot is created, and the client is told.
///
/// # Errors
///
/// `Store` where the store stopped, and then the turn was cut; else for want of memory.
pub fn hear_snap<S: Store, C: Clock>(
    alloc: Global,
    plan: TargetPlan,
    store: &mut S,
    clock: &mut C,
    knows: &mut Knows,
    snaps: &mut SnapCore,
    request: ContRequest,
    tracker: Epoch,
    name: &Key,
    message: &Message,
) -> Result<Did, TargetStop>
    requires target { IsTarget plan (S.state store.old) (S.durable store.old) knows.old }
    requires running { (S.state store.old).stopped ≡ false }
    requires own { IsSnapsOf plan snaps.old }
    requires asks { message.now ≡ asked.Snap request.attempt request.cont name.now tracker }
    requires enlisted { ForSome (S.durable store.old) (λ d. is_enlisted d request.cont ≡ true) }
    ensures turn { (reading : ℕ) × IfSome (C.next clock.old) (λ r. r ≡ reading) × ((d : Durable) → S.durable store.old ≡ Some d
        → SnapTurn plan (remembered (memory_of knows.old) snaps.old) reading request tracker name.now (kept d (S.state store.old))
        (S.durable store.new) (S.state store.new) (S.may store.new) (remembered (memory_of knows.new) snaps.new) result) }
    ensures leader { OnOk result (knows.new.leader ≡ knows.old.leader) }
    ensures own { IsSnapsOf plan snaps.new }
    ensures target { IsTarget plan (S.state store.new) (S.durable store.new) knows.new }
    ensures stopped { Runs stop_store result (S.state store.old) (S.state store.new) (S.durable store.old) (S.durable store.new) }
    ensures native { says stop_foreign result ≡ false }
    ensures reads { IfOk result (λ did. AnswersOnce [] knows.old.member.memory knows.new.member.memory did.posts) }
    ensures posts { request.from.client ≡ true → IfOk result (λ did. MakesInForm plan.targets snaps.old.collecting snaps.new.collecting did.posts) }
    ensures ends { (given : Asked) → given request.attempt ≡ true → IfOk result (λ did. MakesAsked given snaps.old.collecting snaps.new.collecting did.posts) }
    ensures told { TellsNoAttempt result }
    ensures within { OnErr result (IsWithin snaps.new.collecting snaps.old.collecting) }
    ensures clock { AreReadings C.is_read (most_readings false) clock.old clock.new }
{
    match ready(plan, store, clock, knows, tracker, None) {
        Ok(Some(epoch)) => snap_at(
            alloc, plan, store, knows, snaps, request, name, message, epoch,
        ),
        Ok(None) => ended(
            alloc,
            request,
            None,
            Outcome::EpochsSpent,
            Items::new(alloc),
            None,
        ),
        Err(Stopped) => Err(stop_of(alloc, Halt::Stopped, None)),
    }
}
