// Runs a script on stores.
ghost use Rattle.std.specs.Prelude.{◌≡◌, ◌≤◌, ℕ, List, [], length, IfErr, IfOk};
ghost use Rattle.daos_model.specs.declared.durable.Durable.{Durable};
ghost use Rattle.daos_model.specs.Stops.{stop_numbers};
ghost use Rattle.daos_run.specs.Alone.{TellsOfLoneClient};
ghost use Rattle.daos_run.specs.Back.{IsReadBack};
ghost use Rattle.daos_run.specs.Comes.{BreaksOff, ComesFrom, ComesFromClocks, FindsPlaces};
ghost use Rattle.daos_run.specs.Opens.{MayRun, given};
ghost use Rattle.daos_run.specs.Slots.{AreFree, AreSet, ClocksAreRead, FusesAreGone, HaveStores, StoresAreServed, stores_in};
ghost use Rattle.daos_run.specs.Stops.{IsOpeningFault, MayStop};
ghost use Rattle.model_lone.specs.Only.{TellsOfOnlyClient};
ghost use Rattle.model_reports.specs.Lone.{HasOneClient};
ghost use Rattle.model_reports.specs.Rooms.{FindsRoom, HasPlaces, HasRoom, SnapshotsFindPlaces};
ghost use Rattle.run_targets.specs.Below.{AllBeginInTurn, AllTellInOrder};
ghost use Rattle.world_ended.specs.Clients.{AllEndWell};
ghost use Rattle.world_letters.specs.kinds.Fitting.{AllAnswersFit};
ghost use Rattle.run_targets.specs.Ends.{IsKeyed, IsReportOfLines, declared_conts};
ghost use Rattle.report_round_trip.specs.Values.{AllTellBytes};
ghost use Rattle.run_starts.specs.run_opening.All.{AreKept, MayBeFound};
ghost use Rattle.run_starts.specs.Starts.{CanOpen};
ghost use Rattle.base_types.specs.Scripts.{IsInForm};
ghost use Rattle.script_traits.specs.Plain.{IsPlain};

use crate::opening::{clients_of, open_parts};
use crate::parts::Parts;
use crate::starting::{disarm, hand_back, start_all};
use crate::stop::RunStop;
use base_outside::clock::Clock;
use base_outside::gate::Gate;
use base_types::job::Job;
use base_types::report::Report;
use base_types::script::Script;
use report_round_trip::laws_of_reading_back;
use run_targets::run::run_targets;
use std::alloc::Global;
use std::sync::Wait;
use std::thread::Threads;
use vos_store::store::Fuse;

/// Runs a script on the stores of its targets, and reports what became of its commands. What the stores keep
/// is sound together, with each frozen snapshot at or below the floor of its container, as runs leave it behind;
/// and each was opened at most 2^63 + 1 times. They are opened first: they get the script's containers, nothing
/// is left to settle, and each target holds, frozen, the snapshots that target 0 held as created and that the
/// script doesn't drop; clients may read those that the script names. Fuses that are set are taken away; while
/// the script runs, a store has those of its target's stop lines, one after another; in the end it has none. The
/// stores and the clocks are set again at every ending, each at its place; a clock is then the one that was
/// given, after so many readings: by `read`, after just those at which its target issued epochs. Where a store tells nothing of what it keeps, only `told`, `in_turn`, `kinds`,
/// `ends`, `in_order` and `bytes` bind what the report tells; the run is safe, and errors are told as of any
/// others.
///
/// The report's lines are those of a run of the world in the order asked. Of each target no more turns are cut in
/// it, and no more openings fail, than counts of its store rise; and where its fuse is told, than the script has stop
/// lines for it and the outside fails the store. The script may make snapshots, read at them and aggregate; `lone` is
/// of scripts that don't, and `alone` of any.
///
/// The report names the least of the targets that were given up, if one was; the store of such a one is
/// stopped.
///
/// # Errors
///
/// `RackFault` of a target where its store stopped while it was opened for the script, which is only
/// where the outside failed it in this call, or, of a store that doesn't tell its fuse, where a fuse did;
/// `Memory`; and `Shape` where a store has no place for the script's containers, which are more than 256
/// with its own. Whatever the next openings of the stores find then is sound, and may be opened again; it stands
/// for what the stores stood for, or for that and the attempts that are resolved there.
pub fn run_on<R: Threads + Wait + Sync, S: Fuse + Send, C: Clock + Send, G: Gate + Sync>(
    rt: &R,
    alloc: Global,
    job: &Job,
    script: &Script,
    parts: &mut Parts<S, C>,
    gate: &G,
) -> Result<Report, RunStop>
    requires least_targets { 1 ≤ job.now.targets }
    requires most_targets { job.now.targets ≤ 64 }
    requires least { 1 ≤ job.now.attempts }
    requires most { job.now.attempts ≤ 100 }
    requires script { IsInForm job.now.targets script.now }
    requires stores { HaveStores (λ t store. MayRun S.durable S.state job.now.targets store) job.now.targets parts.old }
    requires sound { (B : List Durable) → AreKept S.durable (stores_in parts.old) B → CanOpen B }
    ensures comes { (B : List Durable) → AreKept S.durable (stores_in parts.old) B → (free : ℕ → ℕ) → AreFree S.state parts.old free → IfOk result
        (ComesFrom S.durable S.state S.may (given script.now job.now B free) (stores_in parts.old) (stores_in parts.new)) }
    ensures read { (B : List Durable) → AreKept S.durable (stores_in parts.old) B → (free : ℕ → ℕ) → AreFree S.state parts.old free → IfOk result
        (ComesFromClocks S.durable S.state S.may C.is_read C.next (given script.now job.now B free) parts.old parts.new) }
    ensures broke { (B : List Durable) → AreKept S.durable (stores_in parts.old) B → (free : ℕ → ℕ) → AreFree S.state parts.old free → IfErr result
        (λ stop. (lasts : List Durable) → MayBeFound S.may (stores_in parts.new) lasts → BreaksOff (given script.now job.now B free) B lasts) }
    ensures room { (B : List Durable) → AreKept S.durable (stores_in parts.old) B → (free : ℕ → ℕ) → AreFree S.state parts.old free
        → FindsPlaces script.now job.now.attempts (length (given script.now job.now B free).opening.stand.snaps) → HasRoom script.now job.now.attempts free → IfOk result FindsRoom }
    ensures places { (B : List Durable) → AreKept S.durable (stores_in parts.old) B → (free : ℕ → ℕ) → AreFree S.state parts.old free
        → HasPlaces script.now job.now.attempts (length (given script.now job.now B free).opening.stand.snaps) → IfOk result (SnapshotsFindPlaces script.now) }
    ensures back { (B : List Durable) → AreKept S.durable (stores_in parts.old) B → (free : ℕ → ℕ) → AreFree S.state parts.old free → IsKeyed (given script.now job.now B free) → IfOk result (IsReadBack script.now) }
    ensures alone { (B : List Durable) → AreKept S.durable (stores_in parts.old) B → (free : ℕ → ℕ) → AreFree S.state parts.old free
        → HasOneClient script.now → IfOk result (λ report. stop_numbers report.lines ≡ [] → TellsOfOnlyClient script.now report) }
    ensures lone { (B : List Durable) → AreKept S.durable (stores_in parts.old) B → (free : ℕ → ℕ) → AreFree S.state parts.old free
        → IsPlain script.now → HasOneClient script.now → script.now.stops ≡ []
        → IfOk result (λ report. stop_numbers report.lines ≡ [] → TellsOfLoneClient (given script.now job.now B free) report) }
    ensures told { IfOk result (IsReportOfLines script.now) }
    ensures in_turn { IfOk result (λ report. AllBeginInTurn job.now.attempts script.now report.lines) }
    ensures kinds { IfOk result (λ report. AllAnswersFit script.now report.lines) }
    ensures ends { IfOk result (λ report. AllEndWell script.now report.lines) }
    ensures in_order { IfOk result (λ report. AllTellInOrder script.now report.lines) }
    ensures bytes { IfOk result (λ report. AllTellBytes report.lines) }
    ensures served { StoresAreServed S.durable S.state parts.old parts.new }
    ensures unfused { FusesAreGone S.state parts.new }
    ensures clocks { ClocksAreRead C.is_read parts.old parts.new }
    ensures fault { IfErr result (IsOpeningFault S.state parts.old parts.new) }
    ensures refusals { IfErr result (MayStop S.durable (declared_conts script.now) job.now.targets (stores_in parts.old)) }
    ensures set { AreSet job.now.targets parts.new }
{
    laws_of_reading_back();
    disarm(parts, job.targets);
    let (tracker, held) = open_parts(alloc, script, parts, job.targets)?;
    let clients = clients_of(alloc, script, &held, tracker, job.attempts)?;
    let targets = start_all(alloc, job, parts)?;
    let (targets, ran) = run_targets(rt, alloc, job, script, clients, targets, gate);
    hand_back(parts, targets);
    Ok(ran?)
}
