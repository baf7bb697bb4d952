// Runs a script and makes the text that is told of its report.
ghost use Rattle.std.specs.Prelude.{◌≡◌, ◌<◌, ◌≤◌, IfOk, IsOkUnless};
ghost use Rattle.daos_app.specs.Answers.{IsReported, IsSummed};
ghost use Rattle.base_types.specs.Scripts as scripts;
ghost use Rattle.daos_words.specs.Laws.{IsInForm};
ghost use Rattle.script_traits.specs.Keyed.{ScriptHasKeys};

use crate::load::load_script;
use base_outside::gate::Gate;
use base_outside::rack::Rack;
use base_types::items::Memory;
use base_types::job::Job;
use base_types::script::Script;
use daos_run::run::run_script;
use daos_run::stop::RunStop;
use daos_summary::summary::summary_text;
use report_writer::text::report_text;
use std::alloc::{AllocError, Global};
use std::sync::Wait;
use std::thread::Threads;

/// Runs a script for the targets of a job, and makes the text of its report.
///
/// # Errors
///
/// For want of memory alone.
pub fn run_text<R: Threads + Wait + Sync, B: Rack, G: Gate + Sync>(
    rt: &R,
    alloc: Global,
    job: &Job,
    script: &Script,
    rack: &mut B,
    gate: &G,
) -> Result<Vec<u8>, RunStop>
    requires job { IsInForm job.now }
    requires script { scripts.IsInForm job.now.targets script.now }
    requires keys { ScriptHasKeys script.now }
    ensures reported { IfOk result (λ text. IsReported (B.gives rack.old) B.Clock.is_read B.Clock.next job.now script.now text.items) }
    ensures refusals { IsOkUnless result RunStop.Memory }
    ensures rack { B.count rack.new ≡ B.count rack.old }
{
    let report = run_script(rt, alloc, job, script, rack, gate)?;
    Ok(report_text(alloc, &report, script)?)
}

/// Runs the generated script of so many commands, 1 to 10,000, for the targets of a job, and makes the
/// summary of its report.
///
/// # Errors
///
/// For want of memory alone.
pub fn load_text<R: Threads + Wait + Sync, B: Rack, G: Gate + Sync>(
    rt: &R,
    alloc: Global,
    job: &Job,
    count: u32,
    rack: &mut B,
    gate: &G,
) -> Result<Vec<u8>, RunStop>
    requires job { IsInForm job.now }
    requires some { 0 < count }
    requires few { count ≤ 10000 }
    ensures summed { IfOk result (λ text. IsSummed (B.gives rack.old) B.Clock.is_read B.Clock.next job.now count text.items) }
    ensures refusals { IsOkUnless result RunStop.Memory }
    ensures rack { B.count rack.new ≡ B.count rack.old }
{
    let script = load_script(alloc, count, job.targets)?;
    let report = run_script(rt, alloc, job, &script, rack, gate)?;
    Ok(summary_text(alloc, &report, count)?)
}
