// One target, over whose store one script after another is run.
ghost use Rattle.std.specs.Prelude.{◌≡◌, ◌≤◌, IfOk, OnOk};
ghost use Rattle.run_tests.specs.Lone.{IsLeft, IsOver, IsReady};
ghost use Rattle.base_types.specs.Scripts.{IsInForm};

use base_outside::clock::Clock;
use base_outside::gate::FreeGate;
use base_types::items::Memory;
use base_types::job::{Job, Task};
use base_types::script::Script;
use daos_run::parts::Parts;
use daos_run::run_on::run_on;
use daos_run::stop::RunStop;
use daos_script::script::read_script;
use report_writer::text::report_text;
use std::alloc::Global;
use std::sync::Wait;
use std::thread::Threads;
use vos_plain::store::PlainStore;
use vos_store::store::Store;

// The last tick that an epoch has.
const LAST_TICK: u64 = 72_057_594_037_927_935;

/// Why there is no report: no script that runs, a run that has none, a store that isn't opened again, or memory.
#[derive(Clone, Copy)]
pub(crate) enum LoneNo {
    Script,
    Run(RunStop),
    Open,
    Memory,
}

impl From<Memory> for LoneNo {
    fn from(_error: Memory) -> LoneNo {
        LoneNo::Memory
    }
}

/// An empty store, which the outside fails at the changes of a plan, and a clock.
pub(crate) fn new_parts<C: Clock + Drop>(
    alloc: Global,
    clock: C,
    plan: &[u32],
) -> Result<Parts<PlainStore, C>, LoneNo>
    ensures { IfOk result (IsOver IsReady) }
{
    let mut parts = Parts::new(alloc, 1)?;
    let store = PlainStore::new(alloc, 2, plan)?;
    parts.set(0, store, clock);
    Ok(parts)
}

/// An empty store whose lease is extended to the last tick, and a clock.
pub(crate) fn spent_parts<C: Clock + Drop>(
    alloc: Global,
    clock: C,
) -> Result<Parts<PlainStore, C>, LoneNo>
    ensures { IfOk result (IsOver IsLeft) }
{
    let mut parts = Parts::new(alloc, 1)?;
    let mut store = PlainStore::new(alloc, 2, &[])?;
    let extended = store.extend_lease(LAST_TICK);
    parts.set(0, store, clock);
    match extended {
        Ok(()) => Ok(parts),
        Err(_) => Err(LoneNo::Open),
    }
}

/// The script of a text, for so many targets.
pub(crate) fn script_of(alloc: Global, text: &[u8], targets: u8) -> Result<Script, LoneNo>
    requires some { 1 ≤ targets }
    requires few { targets ≤ 64 }
    ensures { IfOk result (IsInForm targets) }
{
    match read_script(alloc, text, targets) {
        Ok(script) => Ok(script),
        Err(_) => Err(LoneNo::Script),
    }
}

/// Runs the script of a text, and gives the text of its report.
pub(crate) fn report_of<R: Threads + Wait + Sync, C: Clock + Send>(
    rt: &R,
    alloc: Global,
    parts: &mut Parts<PlainStore, C>,
    text: &[u8],
) -> Result<Vec<u8>, LoneNo>
    requires ready { IsOver IsReady parts.old }
    ensures left { OnOk result (IsOver IsLeft parts.new) }
{
    let script = script_of(alloc, text, 1)?;
    let job = Job {
        task: Task::Run,
        targets: 1,
        size_mib: 2,
        attempts: 12,
        epsilon: 0,
        threads: false,
        order: 0,
    };
    match run_on(rt, alloc, &job, &script, parts, &FreeGate) {
        Ok(report) => Ok(report_text(alloc, &report, &script)?),
        Err(stop) => Err(LoneNo::Run(stop)),
    }
}

/// Opens the store again, and gives the lease that it had, in ticks.
pub(crate) fn reopen<C: Clock>(parts: &mut Parts<PlainStore, C>) -> Result<u64, LoneNo>
    requires left { IsOver IsLeft parts.old }
    ensures ready { OnOk result (IsOver IsReady parts.new) }
{
    let Some((mut store, clock)) = parts.take(0) else {
        unreachable!()
    };
    let lease = store.lease();
    let opened = store.reopen(0);
    let incarnation = store.incarnation();
    parts.set(0, store, clock);
    match opened {
        Ok(()) if incarnation <= 1000 => Ok(lease),
        _ => Err(LoneNo::Open),
    }
}
