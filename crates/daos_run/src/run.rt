// Runs a script on targets.
ghost use Rattle.std.specs.Prelude.{◌≡◌, ◌≤◌, [], replicate, IfOk, IsOkUnless, None, OnOk};
ghost use Rattle.daos_model.specs.Opening.{fresh};
ghost use Rattle.daos_run.specs.Back.{IsReadBack};
ghost use Rattle.daos_run.specs.Comes.{FindsPlaces, FollowsFromZeros};
ghost use Rattle.run_targets.specs.Ends.{IsInRealTime, IsLegal, AreIssuedThere};
ghost use Rattle.report_writer.specs.Forms.{IsReportOf};
ghost use Rattle.model_lone.specs.Only.{TellsOfOnlyClient};
ghost use Rattle.model_reports.specs.Lone.{HasOneClient};
ghost use Rattle.model_reports.specs.Rooms.{FindsRoom, HasPlaces, HasRoom, SnapshotsFindPlaces};
ghost use Rattle.daos_run.specs.Alone.{IsOfLoneClient};
ghost use Rattle.base_types.specs.Scripts.{IsInForm};
ghost use Rattle.script_traits.specs.Plain.{IsPlain};
ghost use Rattle.daos_run.specs.Slots.{EachClock, HaveStores};
ghost use Rattle.daos_run.specs.Starts.{IsNewStore};
ghost use Rattle.script_traits.specs.Keyed.{ScriptHasKeys};

use crate::parts::Parts;
use crate::run_on::run_on;
use crate::stop::RunStop;
use base_outside::gate::Gate;
use base_outside::rack::Rack;
use base_types::items::Memory;
use base_types::job::Job;
use base_types::report::Report;
use base_types::script::Script;
use std::alloc::Global;
use std::sync::Wait;
use std::thread::Threads;
use vos_plain::store::PlainStore;

// Each target gets an empty store in memory, and the clock that the rack has for it.
fn set_all<B: Rack>(
    alloc: Global,
    job: &Job,
    rack: &mut B,
    parts: &mut Parts<PlainStore, B::Clock>,
) -> Result<(), Memory>
    requires least_size { 2 ≤ job.now.size_mib }
    requires most_size { job.now.size_mib ≤ 32 }
    requires unset { parts.old ≡ replicate job.now.targets None }
    ensures set { OnOk result (HaveStores (λ t store. IsNewStore job.now.size_mib store) job.now.targets parts.new) }
    ensures clocks { OnOk result (EachClock (B.gives rack.old) parts.new) }
    ensures rack { B.count rack.new ≡ B.count rack.old }
{
    for t in 0..job.targets {
        let store = PlainStore::new(alloc, job.size_mib, &[])?;
        parts.set(t, store, rack.clock(t));
    }
    Ok(())
}

/// Runs a script and reports what became of its commands. So far the store of each target is a list in
/// memory: the rack gives its clock alone. The outside can't fail such a store, so only stop lines stop a
/// target, and none is given up. Each target reads the clock that the rack hands out for it, by `ordered` at
/// just the readings at which it issues epochs; and in that run no more of its turns are cut, and no more of its
/// openings fail, than the script has stop lines for it. The script may make snapshots, read at them and
/// aggregate; `lone` is of scripts that don't, and `alone` of any.
///
/// # Errors
///
/// `Memory` alone: nothing can stop a store in memory while it is opened.
pub fn run_script<R: Threads + Wait + Sync, B: Rack, G: Gate + Sync>(
    rt: &R,
    alloc: Global,
    job: &Job,
    script: &Script,
    rack: &mut B,
    gate: &G,
) -> Result<Report, RunStop>
    requires least_targets { 1 ≤ job.now.targets }
    requires most_targets { job.now.targets ≤ 64 }
    requires least_size { 2 ≤ job.now.size_mib }
    requires most_size { job.now.size_mib ≤ 32 }
    requires least { 1 ≤ job.now.attempts }
    requires most { job.now.attempts ≤ 100 }
    requires script { IsInForm job.now.targets script.now }
    ensures legal { IfOk result (IsLegal (fresh script.now job.now)) }
    ensures form { ScriptHasKeys script.now → IfOk result (IsReportOf script.now) }
    ensures back { ScriptHasKeys script.now → IfOk result (IsReadBack script.now) }
    ensures ordered { IfOk result (FollowsFromZeros (B.gives rack.old) B.Clock.is_read B.Clock.next (fresh script.now job.now)) }
    ensures issued { IfOk result AreIssuedThere }
    ensures in_real_time { IfOk result (IsInRealTime (fresh script.now job.now)) }
    ensures none_down { IfOk result (λ report. report.down ≡ None) }
    ensures room { FindsPlaces script.now job.now.attempts 0 → HasRoom script.now job.now.attempts (fresh script.now job.now).opening.free → IfOk result FindsRoom }
    ensures places { HasPlaces script.now job.now.attempts 0 → IfOk result (SnapshotsFindPlaces script.now) }
    ensures alone { HasOneClient script.now → script.now.stops ≡ [] → IfOk result (TellsOfOnlyClient script.now) }
    ensures lone { IsPlain script.now → HasOneClient script.now → script.now.stops ≡ [] → IfOk result (IsOfLoneClient (fresh script.now job.now)) }
    ensures refusals { IsOkUnless result RunStop.Memory }
    ensures rack { B.count rack.new ≡ B.count rack.old }
{
    let mut parts = Parts::new(alloc, job.targets)?;
    set_all(alloc, job, rack, &mut parts)?;
    run_on(rt, alloc, job, script, &mut parts, gate)
}
