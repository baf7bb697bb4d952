// Target 0 hears another target's Held.
ghost use Rattle.std.specs.Prelude.{◌≡◌, ◌<◌, [], ◌∷◌, IfOk, IfErr, OnErr, Option, Some, None, true, false};
ghost use Rattle.std.specs.Option.{ForSome};
ghost use Rattle.base_messages.specs.declared.message.Message.TheVariants as asked;
ghost use Rattle.base_types.specs.declared.id.AttemptId.{AttemptId};
ghost use Rattle.base_types.specs.declared.outcome.Outcome.{Outcome};
ghost use Rattle.base_types.specs.declared.report.Line.TheVariants as line;
ghost use Rattle.daos_model.specs.declared.durable.Durable.{Durable};
ghost use Rattle.daos_model.specs.Durables.{is_frozen};
ghost use Rattle.snap_core.specs.Snaps.{held_heard, made, remembered, step_of};
ghost use Rattle.vos_store.specs.Refusals.{always_stop, says};
ghost use Rattle.world_base.specs.Changes.{Creates};
ghost use Rattle.world_base.specs.Snapshots.{follows};
ghost use Rattle.target_parts.specs.Keeping.{MadeOrCut};
ghost use Rattle.target_parts.specs.Knowing.{memory_of};
ghost use Rattle.target_parts.specs.Parts.{Runs};
ghost use Rattle.target_parts.specs.Standing.{IsTarget};
ghost use Rattle.target_parts.specs.Stops.{stop_foreign, stop_memory, stop_store};
ghost use Rattle.target_snaps.specs.Following.{IsWithin, MakesAsked, MakesInForm, TellsNoAttempt};
ghost use Rattle.target_snaps.specs.HeldTurns.{AreFrozenHere, HeldTurn, IsSnapsOf, new_snapshot_of};
ghost use Rattle.world_ended.specs.Asking.{Asked, GoesWith};
ghost use Rattle.world_ended.specs.world_letters.kinds.PostLaws.{CarryNone};

use base_messages::message::Message;
use base_types::epoch::{Epoch, TargetId};
use base_types::id::ContId;
use base_types::items::{Items, Memory};
use base_types::key::Key;
use base_types::report::{Line, Lines};
use snap_core::snaps::SnapCore;
use std::alloc::Global;
use target_parts::halt::Halt;
use target_parts::knows::Knows;
use target_parts::stop::{TargetStop, stop_of};
use vos_store::refusal::Stopped;
use vos_store::store::Store;
use world_base::did::Did;
use world_base::target::TargetPlan;

/// A snapshot that all targets hold: its container, its epoch and its name.
#[derive(Drop)]
pub struct NewSnapshot {
    pub cont: ContId,
    pub epoch: Epoch,
    pub name: Key,
}

// The snapshot that an answer makes whole, if it does.
fn made_whole(
    snaps: &SnapCore,
    from: TargetId,
    message: &Message,
) -> Result<Option<NewSnapshot>, Memory>
    requires { from < 64 }
    ensures { IfOk result (λ found. found ≡ new_snapshot_of (made from message.now snaps.now)) }
{
    let Some(collection) = snaps.made_by(from, message) else {
        return Ok(None);
    };
    let Some(name) = &collection.name else {
        return Ok(None);
    };
    Ok(Some(NewSnapshot {
        cont: collection.cont,
        epoch: collection.epoch,
        name: name.copy()?,
    }))
}

/// Notes in the store that a frozen snapshot is created.
///
/// # Errors
///
/// `Stopped` where the store stopped.
pub fn create_at<S: Store>(store: &mut S, cont: ContId, epoch: Epoch) -> Result<(), Stopped>
    requires running { (S.state store.old).stopped ≡ false }
    requires frozen { ForSome (S.durable store.old) (λ d. is_frozen d cont epoch ≡ true) }
    ensures runs { Runs always_stop result (S.state store.old) (S.state store.new) (S.durable store.old) (S.durable store.new) }
    ensures made { (d : Durable) → S.durable store.old ≡ Some d
        → MadeOrCut (Creates cont epoch) d (S.state store.old) (S.durable store.new) (S.state store.new) (S.may store.new) result }
{
    store.create(cont, epoch)?;
    Ok(())
}

// The line of a snapshot that is created.
fn created_line(alloc: Global, made: NewSnapshot) -> Result<Lines, Memory>
    ensures { IfOk result (λ lines. lines ≡ line.Snapshot made.name made.cont made.epoch ∷ []) }
{
    let mut lines = Items::new(alloc);
    let NewSnapshot { cont, epoch, name } = made;
    lines.push(Line::Snapshot { name, cont, epoch })?;
    Ok(lines)
}

// What target 0 makes of the answer, and what follows with these lines.
fn count(
    snaps: &mut SnapCore,
    from: TargetId,
    message: &Message,
    lines: Lines,
) -> Result<Did, TargetStop>
    requires { from < 64 }
    ensures did { IfOk result (λ did. (did.lines ≡ lines) × (did.issued ≡ None) × (step_of snaps.new did.posts ≡ held_heard from message.now snaps.old)) }
    ensures wanting { IfErr result (λ stop. stop ≡ stop_memory) }
    ensures err { OnErr result (snaps.new ≡ snaps.old) }
{
    let posts = snaps.hear_held(from, message)?;
    Ok(Did {
        posts,
        lines,
        issued: None,
    })
}

/// Target 0 hears from another target that it holds what it was asked to, or why it doesn't: the last one that holds a
/// snapshot makes it whole, and then it is created before its client is told.
///
/// # Errors
///
/// `Store` where the store stopped, and then the turn was cut; else for want of memory.
pub fn hear_held<S: Store>(
    alloc: Global,
    plan: TargetPlan,
    store: &mut S,
    knows: &Knows,
    snaps: &mut SnapCore,
    from: TargetId,
    message: &Message,
) -> Result<Did, TargetStop>
    requires target { IsTarget plan (S.state store.old) (S.durable store.old) knows.now }
    requires running { (S.state store.old).stopped ≡ false }
    requires one { from < 64 }
    requires own { IsSnapsOf plan snaps.old }
    requires frozen { ForSome (S.durable store.old) (AreFrozenHere snaps.old) }
    ensures turn { (attempt : AttemptId) (refusal : Option Outcome) → message.now ≡ asked.Held attempt refusal → (d : Durable) → S.durable store.old ≡ Some d
        → HeldTurn plan (remembered (memory_of knows.now) snaps.old) from attempt refusal d (S.state store.old)
        (S.durable store.new) (S.state store.new) (S.may store.new) (remembered (memory_of knows.now) snaps.new) result }
    ensures own { IsSnapsOf plan snaps.new }
    ensures target { IsTarget plan (S.state store.new) (S.durable store.new) knows.now }
    ensures stopped { Runs stop_store result (S.state store.old) (S.state store.new) (S.durable store.old) (S.durable store.new) }
    ensures native { says stop_foreign result ≡ false }
    ensures reads { IfOk result (λ did. CarryNone did.posts) }
    ensures posts { IfOk result (λ did. MakesInForm plan.targets snaps.old.collecting snaps.new.collecting did.posts) }
    ensures ends { (given : Asked) → GoesWith given message.now → IfOk result (λ did. MakesAsked given snaps.old.collecting snaps.new.collecting did.posts) }
    ensures told { TellsNoAttempt result }
    ensures within { OnErr result (IsWithin snaps.new.collecting snaps.old.collecting) }
{
    let _plan = plan;
    let _knows = knows;
    let Some(made) = made_whole(snaps, from, message)? else {
        return count(snaps, from, message, Items::new(alloc));
    };
    if let Err(Stopped) = create_at(store, made.cont, made.epoch) {
        return Err(stop_of(alloc, Halt::Stopped, None));
    }
    let lines = created_line(alloc, made)?;
    count(snaps, from, message, lines)
}
