// The stores of all targets are opened for a run of a script.
ghost use Rattle.std.specs.Prelude.{◌≡◌, ◌≤◌, ◌<◌, ◌^◌, ℕ, List, length, IfErr, IfOk, OnOk};
ghost use Rattle.base_types.specs.Epochs.{restart_floor};
ghost use Rattle.daos_model.specs.declared.durable.Durable.{Durable};
ghost use Rattle.daos_model.specs.Sound.{Sound};
ghost use Rattle.run_opening.specs.All.{AllRun, AreKept, MayBeFound};
ghost use Rattle.run_opening.specs.Left.{IsLeftOf};
ghost use Rattle.run_starts.specs.Calls.{RunAll, WhyNotOpened};
ghost use Rattle.run_starts.specs.Starts.{AreOpened, CanOpen, IsWhole, MayOpenAgain};
ghost use Rattle.world_closing.specs.Below.{declared_conts};

use crate::enlisting::{conts_of, enlist_all};
use crate::held::held_at_first;
use crate::leases::tracker_of;
use crate::stop::{StartStop, opening_stop};
use base_types::epoch::Epoch;
use base_types::script::Script;
use base_types::snapshot::Snaps;
use run_opening::opening::open_all;
use std::alloc::Global;
use vos_store::store::Store;

// The stores get the script's containers, and are opened together.
fn open_together<S: Store>(
    alloc: Global,
    script: &Script,
    stores: &mut [S],
) -> Result<(), StartStop>
    requires some { 0 < length stores.old }
    requires few { length stores.old ≤ 64 }
    requires running { AllRun S.state stores.old }
    ensures calls { RunAll S.durable S.state result stores.old stores.new }
    ensures why { IfErr result (WhyNotOpened S.durable (declared_conts script.now) stores.old) }
    ensures opened { (B : List Durable) → AreKept S.durable stores.old B → Sound B → OnOk result (IsWhole S.durable script.now B stores.new) }
    ensures left { (B : List Durable) → AreKept S.durable stores.old B → Sound B → (lasts : List Durable) → MayBeFound S.may stores.new lasts → IsLeftOf script.now B lasts }
{
    let conts = conts_of(alloc, script)?;
    enlist_all(&conts, stores)?;
    match open_all(alloc, script, stores) {
        Ok(()) => Ok(()),
        Err(stop) => Err(opening_stop(stop)),
    }
}

/// The stores of all targets are opened for a run of a script: each gets the script's containers; then they
/// are opened together, by which nothing is left to settle, and each target holds, frozen, the snapshots that
/// target 0 held as created and that the script doesn't drop. The epoch is the greatest that a lease of theirs
/// covers; and the snapshots are those that target 0 holds. Whatever the next openings of the stores find, also
/// where this one is cut, is sound, and stands for the same; it may be opened for any script, and no snapshot
/// lasts then where none would have lasted before.
///
/// # Errors
///
/// Where the store of a target stopped, which is named, or has no place for the containers; and for want of
/// memory.
pub fn open_stores<S: Store>(
    alloc: Global,
    script: &Script,
    stores: &mut [S],
) -> Result<(Epoch, Snaps), StartStop>
    requires some { 0 < length stores.old }
    requires few { length stores.old ≤ 64 }
    requires running { AllRun S.state stores.old }
    requires sound { (B : List Durable) → AreKept S.durable stores.old B → CanOpen B }
    ensures calls { RunAll S.durable S.state result stores.old stores.new }
    ensures why { IfErr result (WhyNotOpened S.durable (declared_conts script.now) stores.old) }
    ensures bounded { IfOk result (λ opened. (lease : ℕ) × (lease < 2 ^ 56) × (opened.0 ≡ record { 0 = restart_floor lease })) }
    ensures opened { (B : List Durable) → AreKept S.durable stores.old B → IfOk result (λ opened. AreOpened S.durable S.state script.now B stores.new opened.0 opened.1) }
    ensures left { (B : List Durable) → AreKept S.durable stores.old B → (lasts : List Durable) → MayBeFound S.may stores.new lasts → IsLeftOf script.now B lasts }
    ensures again { (B : List Durable) → AreKept S.durable stores.old B → (lasts : List Durable) → MayBeFound S.may stores.new lasts → MayOpenAgain B lasts }
{
    open_together(alloc, script, stores)?;
    let held = held_at_first(stores)?;
    Ok((tracker_of(stores), held))
}
