// The containers of a script are added to the stores of all targets.
ghost use Rattle.std.specs.Prelude.{◌≡◌, ◌≤◌, ◌<◌, length, IfErr, IfOk, OnOk};
ghost use Rattle.daos_model.specs.Changes.{enlisted};
ghost use Rattle.run_opening.specs.All.{AllRun, FromTo};
ghost use Rattle.run_opening.specs.Left.{LeavesAll, LeavesAt, or_not};
ghost use Rattle.run_starts.specs.Calls.{EnlistsAt, RunAll, WhyNotOpened, WithContainers};
ghost use Rattle.world_closing.specs.Below.{declared_conts};

use crate::stop::{StartStop, enlist_stop};
use base_types::id::ContId;
use base_types::items::Memory;
use base_types::script::Script;
use std::alloc::Global;
use vos_store::store::Store;

/// The containers that a script declares.
pub fn conts_of(alloc: Global, script: &Script) -> Result<Vec<ContId>, Memory>
    ensures { IfOk result (λ conts. conts.items ≡ declared_conts script.now) }
{
    let mut conts = Vec::with_capacity(alloc, script.conts.len())?;
    for cont in script.conts.as_slice() {
        conts.push(cont.id)?;
    }
    Ok(conts)
}

// Containers are added to the store of a target.
fn enlist_at<S: Store>(conts: &[ContId], stores: &mut [S], t: usize) -> Result<(), StartStop>
    requires few { length stores.old ≤ 64 }
    requires within { t < length stores.old }
    requires running { AllRun S.state stores.old }
    ensures enlists { EnlistsAt S.durable S.state conts.now t result stores.old stores.new }
    ensures left { LeavesAt S.durable S.may t (or_not (enlisted conts.now)) stores.old stores.new }
{
    match stores[t].enlist(conts) {
        Ok(()) => Ok(()),
        Err(no) => Err(enlist_stop(t as u8, no)),
    }
}

/// Containers are added to the stores of all targets.
///
/// # Errors
///
/// Where the store of a target stopped, or has no place for them; and for want of memory.
pub fn enlist_all<S: Store>(conts: &[ContId], stores: &mut [S]) -> Result<(), StartStop>
    requires few { length stores.old ≤ 64 }
    requires running { AllRun S.state stores.old }
    ensures calls { RunAll S.durable S.state result stores.old stores.new }
    ensures enlisted { OnOk result (FromTo stores.old stores.new (λ t x y. WithContainers S.durable conts.now x y)) }
    ensures why { IfErr result (WhyNotOpened S.durable conts.now stores.old) }
    ensures left { LeavesAll S.durable S.may (λ t. or_not (enlisted conts.now)) stores.old stores.new }
{
    for t in 0..stores.len() {
        enlist_at(conts, stores, t)?;
    }
    Ok(())
}
