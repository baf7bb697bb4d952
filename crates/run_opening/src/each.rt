// The parts of the opening of one target, by its number.
ghost use Rattle.std.specs.Prelude.{◌≡◌, ◌≤◌, ◌<◌, List, length, slice_get, Some, IfOk};
ghost use Rattle.base_types.specs.declared.entry.Entry.{Entry};
ghost use Rattle.daos_model.specs.declared.durable.Durable.{Durable};
ghost use Rattle.run_opening.specs.All.{AllRun, GoesAt, IsCommitted, IsOwn};
ghost use Rattle.run_opening.specs.Left.{LeavesAt, first_dropped, first_ended, first_forgotten, first_left_with, nothing};
ghost use Rattle.run_opening.specs.Steps.{dropped, ended, forgotten, left_with, resolved_by, same};

use crate::attempts::{entries_at, forget_all, settle_all};
use crate::snaps::{drop_snaps, thaw_others};
use crate::stop::{OpeningStop, stop_at};
use base_types::entry::Entries;
use base_types::script::Script;
use base_types::snapshot::Snap;
use std::alloc::Global;
use vos_store::store::Store;

/// The entries of a target.
///
/// # Errors
///
/// Where its store stopped, and for want of memory.
pub fn read_at<S: Store>(stores: &mut [S], t: usize) -> Result<Entries, OpeningStop>
    requires few { length stores.old ≤ 64 }
    requires within { t < length stores.old }
    requires running { AllRun S.state stores.old }
    ensures goes { GoesAt S.durable S.state t same result stores.old stores.new }
    ensures own { IfOk result (IsOwn S.durable stores.old t) }
    ensures left { LeavesAt S.durable S.may t nothing stores.old stores.new }
{
    match entries_at(&mut stores[t]) {
        Ok(entries) => Ok(entries),
        Err(halt) => Err(stop_at(t as u8, halt)),
    }
}

/// The attempts of a target's entries are settled, by the entries of all targets.
///
/// # Errors
///
/// Where its store stopped.
pub fn settle_at<S: Store>(stores: &mut [S], all: &[Entries], t: usize) -> Result<(), OpeningStop>
    requires few { length stores.old ≤ 64 }
    requires within { t < length stores.old }
    requires running { AllRun S.state stores.old }
    requires many { length all.now ≡ length stores.old }
    requires entries { (es : List Entry) → slice_get all.now t ≡ Some es → IsOwn S.durable stores.old t es }
    ensures goes { GoesAt S.durable S.state t (ended (resolved_by all.now)) result stores.old stores.new }
    ensures left { LeavesAt S.durable S.may t (first_ended (resolved_by all.now)) stores.old stores.new }
{
    match settle_all(&mut stores[t], all, all[t].as_slice()) {
        Ok(()) => Ok(()),
        Err(_stopped) => Err(OpeningStop::Stopped(t as u8)),
    }
}

/// The entries of a target are forgotten.
///
/// # Errors
///
/// Where its store stopped, and for want of memory.
pub fn forget_at<S: Store>(stores: &mut [S], t: usize) -> Result<(), OpeningStop>
    requires few { length stores.old ≤ 64 }
    requires within { t < length stores.old }
    requires running { AllRun S.state stores.old }
    requires committed { IsCommitted S.durable stores.old t }
    ensures goes { GoesAt S.durable S.state t forgotten result stores.old stores.new }
    ensures left { LeavesAt S.durable S.may t first_forgotten stores.old stores.new }
{
    match forget_all(&mut stores[t]) {
        Ok(()) => Ok(()),
        Err(halt) => Err(stop_at(t as u8, halt)),
    }
}

/// Target 0 thaws its created snapshots that a script drops.
///
/// # Errors
///
/// Where its store stopped, and for want of memory.
pub fn drop_at_first<S: Store>(
    alloc: Global,
    script: &Script,
    stores: &mut [S],
) -> Result<(), OpeningStop>
    requires some { 0 < length stores.old }
    requires running { AllRun S.state stores.old }
    ensures goes { GoesAt S.durable S.state 0 (dropped script.now) result stores.old stores.new }
    ensures left { LeavesAt S.durable S.may 0 (first_dropped script.now) stores.old stores.new }
{
    match drop_snaps(alloc, script, &mut stores[0]) {
        Ok(()) => Ok(()),
        Err(halt) => Err(stop_at(0, halt)),
    }
}

/// A target thaws its snapshots that are none of some.
///
/// # Errors
///
/// Where its store stopped, and for want of memory.
pub fn thaw_at<S: Store>(
    alloc: Global,
    some: &[Snap],
    stores: &mut [S],
    t: usize,
) -> Result<(), OpeningStop>
    requires few { length stores.old ≤ 64 }
    requires within { t < length stores.old }
    requires running { AllRun S.state stores.old }
    ensures goes { GoesAt S.durable S.state t (left_with some.now) result stores.old stores.new }
    ensures left { LeavesAt S.durable S.may t (first_left_with some.now) stores.old stores.new }
{
    match thaw_others(alloc, some, &mut stores[t]) {
        Ok(()) => Ok(()),
        Err(halt) => Err(stop_at(t as u8, halt)),
    }
}
