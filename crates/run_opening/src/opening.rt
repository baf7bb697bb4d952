// The opening of a run over the stores of all targets.
ghost use Rattle.std.specs.Prelude.{◌≡◌, ◌≤◌, ◌<◌, List, length, IfOk, OnOk};
ghost use Rattle.daos_model.specs.declared.durable.Durable.{Durable};
ghost use Rattle.daos_model.specs.Sound.{Sound};
ghost use Rattle.run_opening.specs.All.{AllRun, AreEntries, AreKept, DropsAll, EachCommitted, EndsAll, GoesAll, MayBeFound, RunAll, alike};
ghost use Rattle.run_opening.specs.Left.{DropsPartly, EndsPartly, IsLeftOf, LeavesAll, first_ended, first_forgotten, first_left_with, nothing};
ghost use Rattle.run_opening.specs.Opened.{opened_family};
ghost use Rattle.run_opening.specs.Steps.{ended, forgotten, left_with, resolved_by, same};

use crate::each::{drop_at_first, forget_at, read_at, settle_at, thaw_at};
use crate::snaps::created_at;
use crate::stop::OpeningStop;
use base_types::entry::Entries;
use base_types::script::Script;
use base_types::snapshot::Snap;
use std::alloc::Global;
use vos_store::store::Store;

// The entries of all targets.
fn read_all<S: Store>(alloc: Global, stores: &mut [S]) -> Result<Vec<Entries>, OpeningStop>
    requires few { length stores.old ≤ 64 }
    requires running { AllRun S.state stores.old }
    ensures goes { GoesAll S.durable S.state (alike same) result stores.old stores.new }
    ensures entries { IfOk result (λ all. AreEntries S.durable stores.old all.items) }
    ensures left { LeavesAll S.durable S.may (λ t. nothing) stores.old stores.new }
{
    let mut all = Vec::new(alloc);
    for t in 0..stores.len() {
        let entries = read_at(stores, t)?;
        all.push(entries)?;
    }
    Ok(all)
}

// Each attempt is settled at all targets that have an entry of it.
fn settle_each<S: Store>(stores: &mut [S], all: &[Entries]) -> Result<(), OpeningStop>
    requires few { length stores.old ≤ 64 }
    requires running { AllRun S.state stores.old }
    requires entries { AreEntries S.durable stores.old all.now }
    ensures goes { GoesAll S.durable S.state (alike (ended (resolved_by all.now))) result stores.old stores.new }
    ensures left { LeavesAll S.durable S.may (λ t. first_ended (resolved_by all.now)) stores.old stores.new }
{
    for t in 0..stores.len() {
        settle_at(stores, all, t)?;
    }
    Ok(())
}

// All entries are forgotten.
fn forget_each<S: Store>(stores: &mut [S]) -> Result<(), OpeningStop>
    requires few { length stores.old ≤ 64 }
    requires running { AllRun S.state stores.old }
    requires committed { EachCommitted S.durable stores.old }
    ensures goes { GoesAll S.durable S.state (alike forgotten) result stores.old stores.new }
    ensures left { LeavesAll S.durable S.may (λ t. first_forgotten) stores.old stores.new }
{
    for t in 0..stores.len() {
        forget_at(stores, t)?;
    }
    Ok(())
}

// Each target thaws its snapshots that are none of some.
fn thaw_each<S: Store>(alloc: Global, some: &[Snap], stores: &mut [S]) -> Result<(), OpeningStop>
    requires few { length stores.old ≤ 64 }
    requires running { AllRun S.state stores.old }
    ensures goes { GoesAll S.durable S.state (alike (left_with some.now)) result stores.old stores.new }
    ensures left { LeavesAll S.durable S.may (λ t. first_left_with some.now) stores.old stores.new }
{
    for t in 0..stores.len() {
        thaw_at(alloc, some, stores, t)?;
    }
    Ok(())
}

// Each attempt is settled everywhere by the entries of all targets, and then all entries are forgotten.
fn end_attempts<S: Store>(alloc: Global, stores: &mut [S]) -> Result<(), OpeningStop>
    requires few { length stores.old ≤ 64 }
    requires running { AllRun S.state stores.old }
    ensures goes { EndsAll S.durable S.state result stores.old stores.new }
    ensures left { EndsPartly S.durable S.may stores.old stores.new }
{
    let all = read_all(alloc, stores)?;
    settle_each(stores, all.as_slice())?;
    forget_each(stores)
}

// Target 0 thaws its created snapshots that a script drops, and then all targets those that target 0 doesn't hold as created.
fn drop_all<S: Store>(alloc: Global, script: &Script, stores: &mut [S]) -> Result<(), OpeningStop>
    requires some { 0 < length stores.old }
    requires few { length stores.old ≤ 64 }
    requires running { AllRun S.state stores.old }
    ensures goes { DropsAll S.durable S.state script.now result stores.old stores.new }
    ensures left { DropsPartly S.durable S.may script.now stores.old stores.new }
{
    drop_at_first(alloc, script, stores)?;
    let created = created_at(alloc, &stores[0])?;
    thaw_each(alloc, created.as_slice(), stores)
}

/// The stores of all targets are opened together, before a run: each attempt is settled everywhere by the
/// entries of all targets, and the entries are forgotten; target 0 drops its created snapshots that the
/// script drops; and all targets thaw those that target 0 doesn't hold as created. Of targets that are sound
/// together this makes what the laws of openings say. Whatever the next openings of the stores find, also where
/// this one is cut, is sound, with each frozen snapshot at or below its floor where so it was before, and stands
/// for the same.
///
/// # Errors
///
/// Where the store of a target stopped, which is named, and for want of memory.
pub fn open_all<S: Store>(
    alloc: Global,
    script: &Script,
    stores: &mut [S],
) -> Result<(), OpeningStop>
    requires some { 0 < length stores.old }
    requires few { length stores.old ≤ 64 }
    requires running { AllRun S.state stores.old }
    ensures calls { RunAll S.durable S.state result stores.old stores.new }
    ensures opened { (F : List Durable) → AreKept S.durable stores.old F → Sound F → OnOk result (AreKept S.durable stores.new (opened_family script.now F)) }
    ensures left { (F : List Durable) → AreKept S.durable stores.old F → Sound F → (lasts : List Durable) → MayBeFound S.may stores.new lasts → IsLeftOf script.now F lasts }
{
    end_attempts(alloc, stores)?;
    drop_all(alloc, script, stores)
}
