// What two runs tell, one after the other over one store.
ghost use Rattle.std.specs.Prelude.{OnOk};
ghost use Rattle.run_tests.specs.Lone.{IsOver, IsReady};

use crate::lone::{LoneNo, new_parts, reopen, report_of};
use base_outside::count_clock::CountClock;
use daos_run::parts::Parts;
use daos_run::stop::{Part, RunStop};
use std::alloc::Global;
use std::sync::Wait;
use std::thread::Threads;
use vos_plain::store::PlainStore;

/// The changes at which the outside fails a new store, two scripts that are run over it, and what they tell: each
/// its report, and the lease that it leaves; or why it has none.
#[derive(Clone, Copy)]
pub(crate) struct Case<'a> {
    pub plan: &'a [u32],
    pub first: &'a [u8],
    pub second: &'a [u8],
    pub told: &'a [u8],
}

// Runs a script and opens the store again: the report, and the lease that is left.
fn run_once<R: Threads + Wait + Sync>(
    rt: &R,
    alloc: Global,
    parts: &mut Parts<PlainStore, CountClock>,
    script: &[u8],
) -> Result<Vec<u8>, LoneNo>
    requires ready { IsOver IsReady parts.old }
    ensures ready { OnOk result (IsOver IsReady parts.new) }
{
    let mut text = report_of(rt, alloc, parts, script)?;
    let lease = reopen(parts)?;
    text.extend_from_slice(format!(in alloc; "lease {lease}\n")?.as_bytes())?;
    Ok(text)
}

// Why a run over one store has no report.
fn stop_text(stop: RunStop) -> &'static [u8] {
    match stop {
        RunStop::RackFault { target: 0 } => b"fault of target 0\n",
        RunStop::Shape {
            target: 0,
            what: Part::Containers,
            found: 257,
            asked: 256,
        } => b"257 containers of 256\n",
        _ => b"no report\n",
    }
}

// Adds what a run tells to a text.
fn add_told(text: &mut Vec<u8>, told: Result<Vec<u8>, LoneNo>) -> Result<(), LoneNo> {
    match told {
        Ok(told) => text.extend_from_slice(&told)?,
        Err(LoneNo::Run(stop)) => text.extend_from_slice(stop_text(stop))?,
        Err(no) => return Err(no),
    }
    Ok(())
}

// What two scripts tell that are run over a new store.
fn told<R: Threads + Wait + Sync>(
    rt: &R,
    alloc: Global,
    case: Case<'_>,
) -> Result<Vec<u8>, LoneNo> {
    let mut parts = new_parts(alloc, CountClock::new(), case.plan)?;
    let mut text = run_once(rt, alloc, &mut parts, case.first)?;
    let second = run_once(rt, alloc, &mut parts, case.second);
    add_told(&mut text, second)?;
    Ok(text)
}

// Whether a case comes out as it says.
fn comes_out<R: Threads + Wait + Sync>(rt: &R, alloc: Global, case: Case<'_>) -> bool {
    match told(rt, alloc, case) {
        Ok(text) => text.as_slice() == case.told,
        Err(_) => false,
    }
}

/// How many of the cases, from the first one on, come out as they say.
pub(crate) fn agreeing<R: Threads + Wait + Sync>(
    rt: &R,
    alloc: Global,
    cases: &[Case<'_>],
) -> usize {
    for (number, case) in cases.iter().enumerate() {
        if !comes_out(rt, alloc, *case) {
            return number;
        }
    }
    cases.len()
}
