// The text that the program writes: of a run its report, of a load its summary.
ghost use Rattle.std.specs.Prelude.{◌≡◌, ◌≤◌, ◌<◌, ◌↔◌, Err, map, string_bytes, IfErr, IfOk, IsErrOf};
ghost use Rattle.base_types.specs.declared.fault.WordFault.{WordFault};
ghost use Rattle.base_outside.specs.Causes.{Rose};
ghost use Rattle.daos_app.specs.Answers.{AsksLoad, IsAnswerOfLoad, IsBeforeRun, IsRefusal, IsRun, IsSummed, IsTold, RefusesScript};
ghost use Rattle.daos_app.specs.Inputs.{IsRefused};
ghost use Rattle.daos_app.specs.Words.{run_job_of};
ghost use Rattle.daos_words.specs.Laws.{IsInForm};

use crate::input::{InputNo, read_input};
use crate::runs::{load_text, run_text};
use crate::words::run_job;
use base_outside::gate::Gate;
use base_outside::rack::Rack;
use base_outside::source::Source;
use base_types::job::{Job, Task};
use daos_status::status::Status;
use daos_words::fault::WordNo;
use std::alloc::Global;
use std::sync::Wait;
use std::thread::Threads;

// The report of a run of the script that the source gives; or why there is none.
fn report_text_of<R: Threads + Wait + Sync, S: Source, B: Rack, G: Gate + Sync>(
    rt: &R,
    alloc: Global,
    job: &Job,
    source: &mut S,
    rack: &mut B,
    gate: &G,
) -> Result<Vec<u8>, Status>
    requires job { IsInForm job.now }
    ensures text { IfOk result (λ text. IsRun (B.gives rack.old) B.Clock.is_read B.Clock.next job.now (S.left source.old) (S.left source.new) text.items) }
    ensures refused { IfErr result (IsRefusal (IsRefused job.now.targets (S.left source.old) (S.left source.new))) }
    ensures no_words { (fault : WordFault) → IsErrOf result (Status.Words fault) → ⊥ }
    ensures fault { IsErrOf result Status.ReadFault → Rose (S.count source.old) (S.count source.new) }
    ensures unasked { IfErr result (λ status. IsBeforeRun status → rack.new ≡ rack.old) }
    ensures later { S.count source.old ≤ S.count source.new }
    ensures rack { B.count rack.new ≡ B.count rack.old }
{
    let script = match read_input(alloc, source, job.targets) {
        Ok(script) => script,
        Err(InputNo::Fault) => return Err(Status::ReadFault),
        Err(InputNo::Refused(fault)) => return Err(Status::Script(fault)),
        Err(InputNo::Memory) => return Err(Status::Memory),
    };
    match run_text(rt, alloc, job, &script, rack, gate) {
        Ok(text) => Ok(text),
        Err(_) => Err(Status::Memory),
    }
}

// The summary of a load of so many commands; for want of memory there is none.
fn summary_text_of<R: Threads + Wait + Sync, B: Rack, G: Gate + Sync>(
    rt: &R,
    alloc: Global,
    job: &Job,
    count: u32,
    rack: &mut B,
    gate: &G,
) -> Result<Vec<u8>, Status>
    requires job { IsInForm job.now }
    requires load { job.now.task ≡ Task.Load count }
    ensures text { IfOk result (λ text. IsSummed (B.gives rack.old) B.Clock.is_read B.Clock.next job.now count text.items) }
    ensures refused { IfErr result (λ status. status ≡ Status.Memory) }
    ensures rack { B.count rack.new ≡ B.count rack.old }
{
    match load_text(rt, alloc, job, count, rack, gate) {
        Ok(text) => Ok(text),
        Err(_) => Err(Status::Memory),
    }
}

/// The text that the program writes for words and a source: of a run the report, of a load the
/// summary of its report.
///
/// # Errors
///
/// `Words`, then `ReadFault`, then `Script`; and `Memory` at any place. A load reads nothing, and has
/// no error behind the words but `Memory`.
#[tactic(auto, using(crate::proofs::Refusals::all_refused_for))]
pub fn text_of<R: Threads + Wait + Sync, S: Source, B: Rack, G: Gate + Sync>(
    rt: &R,
    alloc: Global,
    words: &[String],
    source: &mut S,
    rack: &mut B,
    gate: &G,
) -> Result<Vec<u8>, Status>
    ensures text { IfOk result (λ text. IsTold (B.gives rack.old) B.Clock.is_read B.Clock.next (map string_bytes words.now) (S.left source.old) (S.left source.new) text.items) }
    ensures refused { IfErr result (IsRefusal (RefusesScript (map string_bytes words.now) (S.left source.old) (S.left source.new))) }
    ensures words { (fault : WordFault) → IsErrOf result (Status.Words fault) ↔ (run_job_of (map string_bytes words.now) ≡ Err fault) }
    ensures fault { IsErrOf result Status.ReadFault → Rose (S.count source.old) (S.count source.new) }
    ensures unread { (fault : WordFault) → IsErrOf result (Status.Words fault) → source.new ≡ source.old }
    ensures unread_by_load { AsksLoad (map string_bytes words.now) → source.new ≡ source.old }
    ensures load { AsksLoad (map string_bytes words.now) → IfErr result IsAnswerOfLoad }
    ensures unasked { IfErr result (λ status. IsBeforeRun status → rack.new ≡ rack.old) }
    ensures later { S.count source.old ≤ S.count source.new }
    ensures rack { B.count rack.new ≡ B.count rack.old }
{
    let job = match run_job(alloc, words) {
        Ok(job) => job,
        Err(WordNo::Fault(fault)) => return Err(Status::Words(fault)),
        Err(WordNo::Memory) => return Err(Status::Memory),
    };
    match job.task {
        Task::Run => report_text_of(rt, alloc, &job, source, rack, gate),
        Task::Load(count) => summary_text_of(rt, alloc, &job, count, rack, gate),
        Task::Rebuild(_) | Task::Dfs | Task::Audit => unreachable!(),
    }
}
