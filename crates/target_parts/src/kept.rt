// The entries that a store keeps, as a target knows them, and the steps of attempts.
ghost use Rattle.std.specs.Prelude.{◌≡◌, filter, find, OnOk, Some, false};
ghost use Rattle.std.specs.Option.{ForSome};
ghost use Rattle.base_types.specs.declared.entry.Settle.TheVariants as settle;
ghost use Rattle.world_contents.specs.model_laws.Members.{Has};
ghost use Rattle.daos_model.specs.declared.durable.Durable.{Durable};
ghost use Rattle.daos_model.specs.Durables.{is_entry_of};
ghost use Rattle.dtx_base.specs.Leading.{forgotten, is_led};
ghost use Rattle.dtx_base.specs.Rows.{itself, without_row};
ghost use Rattle.dtx_leader.specs.dtx_entries.Settling.{entries_settled, entry_in};
ghost use Rattle.vos_store.specs.Conditions.{CanSettle, IsStep};
ghost use Rattle.vos_store.specs.Refusals.{always_stop};
ghost use Rattle.world_contents.specs.world_base.Changes.{Settles};
ghost use Rattle.world_contents.specs.world_base.Roles.{is_open_entry, is_prepared, other_leader_of};
ghost use Rattle.target_parts.specs.Keeping.{IsEnding, MadeIf, MadeOrCut};
ghost use Rattle.target_parts.specs.Knowing.{LeadsWell, memory_of};
ghost use Rattle.target_parts.specs.Parts.{Runs};
ghost use Rattle.target_parts.specs.Standing.{Keeps};

use crate::knows::Knows;
use base_types::entry::{Entry, Settle};
use base_types::epoch::TargetId;
use base_types::id::AttemptId;
use dtx_leader::below::entries::table::EntryTable;
use dtx_leader::below::table::led::find_led;
use dtx_leader::below::table::seat::Seat;
use vos_store::refusal::Stopped;
use vos_store::store::Store;
use world_contents::below::world::target::TargetPlan;

/// A step of an attempt, in the store and among the entries that are known.
///
/// # Errors
///
/// `Stopped` where the store stopped.
pub fn settle<S: Store>(
    store: &mut S,
    entries: &mut EntryTable,
    attempt: AttemptId,
    step: Settle,
) -> Result<(), Stopped>
    requires step { IsStep step }
    requires running { (S.state store.old).stopped ≡ false }
    requires can { ForSome (S.durable store.old) (CanSettle attempt step) }
    ensures runs { Runs always_stop result (S.state store.old) (S.state store.new) (S.durable store.old) (S.durable store.new) }
    ensures made { (d : Durable) → S.durable store.old ≡ Some d
        → MadeOrCut (Settles attempt step) d (S.state store.old) (S.durable store.new) (S.state store.new) (S.may store.new) result }
    ensures entries { OnOk result (entries.new.items ≡ entries_settled attempt step entries.old.items) }
{
    store.settle(attempt, step)?;
    entries.settle(attempt, step);
    Ok(())
}

/// Whether an attempt is prepared here: it has an entry that isn't committed.
pub fn is_prepared(entries: &EntryTable, attempt: AttemptId) -> bool
    ensures { result ≡ is_open_entry (entry_in entries.now.items attempt) }
{
    match entries.find(attempt) {
        None => false,
        Some(entry) => !entry.committed,
    }
}

/// The other target that leads an attempt which has an entry here.
pub fn other_leader(me: TargetId, entries: &EntryTable, attempt: AttemptId) -> Option<TargetId>
    ensures { result ≡ other_leader_of me (entry_in entries.now.items attempt) }
{
    match entries.find(attempt) {
        None => None,
        Some(entry) => {
            if entry.leader == me {
                None
            } else {
                Some(entry.leader)
            }
        }
    }
}

/// The entry of an attempt, where this target leads it.
pub fn entry_led(entries: &EntryTable, me: TargetId, attempt: AttemptId) -> Option<Entry>
    ensures { result ≡ find (is_entry_of attempt) (filter (is_led me) entries.now.items) }
{
    find_led(entries.of_attempt(attempt), me, attempt)
}

/// Where a target is as a leader.
pub fn seat_of<S: Store>(plan: TargetPlan, store: &S) -> Seat
    ensures me { result.me ≡ plan.me }
    ensures targets { result.targets ≡ plan.targets }
    ensures incarnation { (S.state store.now).stopped ≡ false → ForSome (S.durable store.now) (λ d. result.incarnation ≡ d.incarnation) }
{
    Seat {
        me: plan.me,
        targets: plan.targets,
        incarnation: store.incarnation(),
    }
}

/// A decided attempt is committed in the store, and then is no more among those that are to be settled.
///
/// # Errors
///
/// `Stopped` where the store stopped.
pub fn settle_decided<S: Store>(
    store: &mut S,
    plan: TargetPlan,
    knows: &mut Knows,
    attempt: AttemptId,
) -> Result<(), Stopped>
    requires running { (S.state store.old).stopped ≡ false }
    requires decided { Has attempt knows.old.leader.decided }
    requires leads { ForSome (S.durable store.old) (LeadsWell plan (memory_of knows.old) knows.old.entries.items) }
    ensures made { (d : Durable) → S.durable store.old ≡ Some d
        → MadeOrCut (Settles attempt settle.Commit) d (S.state store.old) (S.durable store.new) (S.state store.new) (S.may store.new) result }
    ensures leader { OnOk result (knows.new.leader ≡ record knows.old.leader { decided = without_row itself attempt knows.old.leader.decided }) }
    ensures keeps { Keeps plan always_stop result (S.state store.old) (S.state store.new) (S.durable store.old) (S.durable store.new) knows.old knows.new }
{
    let _plan = plan;
    settle(store, &mut knows.entries, attempt, Settle::Commit)?;
    knows.leader.settled(attempt);
    Ok(())
}

/// Another target tells what became of an attempt: it is committed or aborted, where it is prepared
/// here, whoever leads it. As a leader this one then neither waits for it nor has to settle it.
///
/// # Errors
///
/// `Stopped` where the store stopped.
pub fn settle_prepared<S: Store>(
    store: &mut S,
    plan: TargetPlan,
    knows: &mut Knows,
    attempt: AttemptId,
    step: Settle,
) -> Result<(), Stopped>
    requires step { IsEnding step }
    requires running { (S.state store.old).stopped ≡ false }
    requires leads { ForSome (S.durable store.old) (LeadsWell plan (memory_of knows.old) knows.old.entries.items) }
    ensures made { (d : Durable) → S.durable store.old ≡ Some d
        → MadeIf (is_prepared attempt d) (Settles attempt step) d (S.state store.old) (S.durable store.new) (S.state store.new) (S.may store.new) result }
    ensures leader { knows.new.leader ≡ forgotten attempt knows.old.leader }
    ensures keeps { Keeps plan always_stop result (S.state store.old) (S.state store.new) (S.durable store.old) (S.durable store.new) knows.old knows.new }
{
    let _plan = plan;
    knows.leader.forget(attempt);
    if !is_prepared(&knows.entries, attempt) {
        return Ok(());
    }
    settle(store, &mut knows.entries, attempt, step)
}
