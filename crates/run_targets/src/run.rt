// Clients and targets run a script.
ghost use Rattle.std.specs.Prelude.{◌≡◌, ◌≤◌, ◌<◌, ℕ, IfErr, IfOk, length, slice_get, Some, true, false};
ghost use Rattle.daos_model.specs.Opening.{Opening};
ghost use Rattle.run_loop.specs.Below.{AllBeginInTurn, AllTell, AllTellInOrder, AreServed, BreaksOffSo, ComesByClocks, ComesTo, HaveStarted, IsReportOfLines, TargetOf, given_by, stores_of};
ghost use Rattle.report_round_trip.specs.Values.{AllTellBytes};
ghost use Rattle.run_loop.specs.world_ended.Clients.{AllEndWell};
ghost use Rattle.world_letters.specs.kinds.Fitting.{AllAnswersFit};

use crate::fuses::{arm, disarm};
use crate::report::report_of;
use base_outside::clock::Clock;
use base_outside::gate::Gate;
use base_types::items::Memory;
use base_types::job::Job;
use base_types::report::Report;
use base_types::script::Script;
use run_base::between::Between;
use run_loop::below::client::client::Client;
pub use run_loop::order::{Target, TargetNew};
use run_loop::order::{Stage, run_in_order};
use run_watch::watch::Watch;
use std::alloc::Global;
use std::sync::Wait;
use vos_store::store::Fuse;

/// Clients and targets that have just started run a script in the job's order, until none has anything to
/// do: the targets, and the report. A target stops where its store does, by the fuse of a stop line or
/// because the outside failed it, and opens again in its next turn; it is given up where the outside
/// fails it in a ninth turn.
///
/// # Errors
///
/// For want of memory. What the targets keep then stands for the opening and the attempts that are resolved
/// there, and it is sound where it was sound at the beginning.
pub fn run_targets<R: Wait, S: Fuse, C: Clock, G: Gate>(
    rt: &R,
    alloc: Global,
    job: &Job,
    script: &Script,
    clients: Vec<Client>,
    targets: Vec<Target<S, C>>,
    gate: &G,
) -> (Vec<Target<S, C>>, Result<Report, Memory>)
    requires started { (o : Opening) × HaveStarted S.durable S.state (given_by script.now job.now o) clients.items targets.items }
    ensures comes { (o : Opening) → HaveStarted S.durable S.state (given_by script.now job.now o) clients.items targets.items → AllTell S.durable (stores_of targets.items)
        → IfOk result.1 (ComesTo S.durable S.state S.may (given_by script.now job.now o) (stores_of targets.items) (stores_of result.0.items)) }
    ensures read { (o : Opening) → HaveStarted S.durable S.state (given_by script.now job.now o) clients.items targets.items → AllTell S.durable (stores_of targets.items)
        → IfOk result.1 (ComesByClocks S.durable S.state S.may C.is_read C.next (given_by script.now job.now o) targets.items result.0.items) }
    ensures broke { (o : Opening) → HaveStarted S.durable S.state (given_by script.now job.now o) clients.items targets.items → AllTell S.durable (stores_of targets.items)
        → IfErr result.1 (λ error. BreaksOffSo S.durable S.may (given_by script.now job.now o) (stores_of targets.items) (stores_of result.0.items)) }
    ensures told { IfOk result.1 (IsReportOfLines script.now) }
    ensures in_turn { IfOk result.1 (λ report. AllBeginInTurn job.now.attempts script.now report.lines) }
    ensures kinds { IfOk result.1 (λ report. AllAnswersFit script.now report.lines) }
    ensures ends { IfOk result.1 (λ report. AllEndWell script.now report.lines) }
    ensures in_order { IfOk result.1 (λ report. AllTellInOrder script.now report.lines) }
    ensures bytes { IfOk result.1 (λ report. AllTellBytes report.lines) }
    ensures served { AreServed S.durable S.state C.is_read targets.items result.0.items }
    ensures unfused { (t : ℕ) (y : TargetOf S C) → slice_get result.0.items t ≡ Some y → (S.state y.store).tells_fuse ≡ true → (S.state y.store).fused ≡ false }
{
    let mut targets = targets;
    let mut watch = match Watch::new(alloc, script.targets, script.stops.as_slice()) {
        Ok(watch) => watch,
        Err(error) => {
            disarm(&mut targets);
            return (targets, Err(error));
        }
    };
    arm(&mut targets, &mut watch);
    let stage = Stage {
        alloc,
        clients,
        targets,
        watch,
        between: Between::new(alloc),
    };
    let (mut targets, _watch, ran) = run_in_order(rt, alloc, job.order, stage, gate);
    disarm(&mut targets);
    match ran {
        Ok(lines) => (targets, Ok(report_of(script, lines))),
        Err(error) => (targets, Err(error)),
    }
}
