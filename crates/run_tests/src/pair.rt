// Two targets, over whose stores a script is run.
ghost use Rattle.std.specs.Prelude.{IfOk};
ghost use Rattle.run_tests.specs.Pair.{AreReady};

use crate::lone::{LoneNo, script_of};
use base_outside::count_clock::CountClock;
use base_outside::gate::FreeGate;
use base_types::job::{Job, Task};
use daos_run::parts::Parts;
use daos_run::run_on::run_on;
use report_writer::text::report_text;
use std::alloc::Global;
use std::sync::Wait;
use std::thread::Threads;
use vos_plain::store::PlainStore;

/// The changes at which the outside fails the store of each target, and what a script then tells.
#[derive(Clone, Copy)]
pub(crate) struct PairCase<'a> {
    pub first: &'a [u32],
    pub second: &'a [u32],
    pub told: &'a [u8],
}

// Two empty stores, which the outside fails at the changes of these plans, with clocks that count.
fn new_pair(
    alloc: Global,
    first: &[u32],
    second: &[u32],
) -> Result<Parts<PlainStore, CountClock>, LoneNo>
    ensures { IfOk result (AreReady 2) }
{
    let first = PlainStore::new(alloc, 2, first)?;
    let second = PlainStore::new(alloc, 2, second)?;
    let mut parts = Parts::new(alloc, 2)?;
    parts.set(0, first, CountClock::new());
    parts.set(1, second, CountClock::new());
    Ok(parts)
}

// Runs the script of a text, and gives the text of its report.
fn report_of_two<R: Threads + Wait + Sync>(
    rt: &R,
    alloc: Global,
    parts: &mut Parts<PlainStore, CountClock>,
    text: &[u8],
) -> Result<Vec<u8>, LoneNo>
    requires { AreReady 2 parts.old }
{
    let script = script_of(alloc, text, 2)?;
    let job = Job {
        task: Task::Run,
        targets: 2,
        size_mib: 2,
        attempts: 12,
        epsilon: 0,
        threads: false,
        order: 0,
    };
    match run_on(rt, alloc, &job, &script, parts, &FreeGate) {
        Ok(report) => Ok(report_text(alloc, &report, &script)?),
        Err(stop) => Err(LoneNo::Run(stop)),
    }
}

// What a script tells that is run over new stores.
fn told<R: Threads + Wait + Sync>(
    rt: &R,
    alloc: Global,
    case: PairCase<'_>,
    script: &[u8],
) -> Result<Vec<u8>, LoneNo> {
    let mut parts = new_pair(alloc, case.first, case.second)?;
    report_of_two(rt, alloc, &mut parts, script)
}

// Whether a case comes out as it says.
fn comes_out<R: Threads + Wait + Sync>(
    rt: &R,
    alloc: Global,
    case: PairCase<'_>,
    script: &[u8],
) -> bool {
    match told(rt, alloc, case, script) {
        Ok(text) => text.as_slice() == case.told,
        Err(_) => false,
    }
}

/// How many of the cases, from the first one on, come out as they say when this script is run.
pub(crate) fn agreeing<R: Threads + Wait + Sync>(
    rt: &R,
    alloc: Global,
    cases: &[PairCase<'_>],
    script: &[u8],
) -> usize {
    for (number, case) in cases.iter().enumerate() {
        if !comes_out(rt, alloc, *case, script) {
            return number;
        }
    }
    cases.len()
}
