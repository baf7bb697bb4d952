// A target answers a read.
ghost use Rattle.std.specs.Prelude.{◌≡◌, ℕ, Decides, Contains, IfOk, Some, true, false};
ghost use Rattle.std.specs.Option.{ForSome};
ghost use Rattle.base_types.specs.Operations.{read_path};
ghost use Rattle.daos_model.specs.declared.durable.Durable.{Durable};
ghost use Rattle.daos_model.specs.Durables.{is_enlisted};
ghost use Rattle.daos_model.specs.Forms.{is_read_in_form};
ghost use Rattle.vos_store.specs.Refusals.{says};
ghost use Rattle.world_base.specs.declared.target.TargetMemory.{TargetMemory};
ghost use Rattle.world_base.specs.Reads.{FetchNext, FetchStage, later_of, later_unless};
ghost use Rattle.target_parts.specs.Halts.{halt_stop};
ghost use Rattle.target_parts.specs.Knowing.{HasEpochs, LeadsWell, memory_of};
ghost use Rattle.target_parts.specs.Parts.{Asks, Part, Runs, kept};
ghost use Rattle.target_parts.specs.dtx_table.Tables.{entry_in};
ghost use Rattle.world_base.specs.Roles.{other_leader_of};
ghost use Rattle.target_reads.specs.Meets.{Meets, MeetsKind, Serves, ServesKind, beside_of};
ghost use Rattle.target_parts.specs.Standing.{Keeps};

use base_types::answer::Answer;
use base_types::epoch::{Epoch, TargetId};
use base_types::id::AttemptId;
use base_types::outcome::{Cause, FloorWhy};
use base_types::shown::Shown;
use dtx_entries::table::EntryTable;
use target_parts::halt::Halt;
use target_parts::kept::{other_leader, settle_decided};
use target_parts::knows::Knows;
use target_parts::later::later_write;
use vos_stamp::checks::{by_floor, check_read};
use vos_store::refusal::FetchNo;
use vos_store::store::Store;
use world_base::request::FetchRequest;
use world_base::target::TargetPlan;

// What a read meets: what refuses it, an attempt that isn't settled, or its answer.
enum Met {
    Refused(Cause),
    Unsettled(AttemptId),
    Answer(Answer),
}

// What a read meets in the store, where this later write refuses it.
fn fetch<S: Store>(
    store: &mut S,
    plan: TargetPlan,
    request: &FetchRequest,
    epoch: Epoch,
    later: Option<Shown>,
) -> Result<Met, Halt>
    requires form { is_read_in_form request.now.read ≡ true }
    requires running { (S.state store.old).stopped ≡ false }
    requires enlisted { ForSome (S.durable store.old) (λ d. is_enlisted d (read_path request.now.read).cont ≡ true) }
    requires later { ForSome (S.durable store.old) (λ d.
        later ≡ later_unless request.now.snapshot (later_of plan request.now.first epoch (read_path request.now.read) d)) }
    ensures runs { Runs halt_stop result (S.state store.old) (S.state store.new) (S.durable store.old) (S.durable store.new) }
    ensures met { (d : Durable) → S.durable store.old ≡ Some d
        → Asks (Meets plan request.now epoch d) d (S.state store.old) (S.durable store.new) (S.state store.new) (S.may store.new) result }
    ensures kind { IfOk result (MeetsKind request.now.read) }
{
    match store.fetch(&request.read, epoch) {
        Ok(answer) => match check_read(epoch, None, plan.me, later)? {
            Some(cause) => Ok(Met::Refused(cause)),
            None => Ok(Met::Answer(answer)),
        },
        Err(FetchNo::Unsettled(other)) => match check_read(epoch, None, plan.me, later)? {
            Some(cause) => Ok(Met::Refused(cause)),
            None => Ok(Met::Unsettled(other)),
        },
        Err(FetchNo::Aggregated(at, number)) => {
            let aggregated = (at, FloorWhy::Aggregate(number));
            Ok(Met::Refused(by_floor(aggregated, plan.me)))
        }
        Err(FetchNo::Stopped) => Err(Halt::Stopped),
        Err(FetchNo::Memory) => Err(Halt::Memory),
    }
}

// What a read meets.
fn meet<S: Store>(
    store: &mut S,
    plan: TargetPlan,
    request: &FetchRequest,
    epoch: Epoch,
) -> Result<Met, Halt>
    requires form { is_read_in_form request.now.read ≡ true }
    requires running { (S.state store.old).stopped ≡ false }
    requires enlisted { ForSome (S.durable store.old) (λ d. is_enlisted d (read_path request.now.read).cont ≡ true) }
    requires epochs { ForSome (S.durable store.old) HasEpochs }
    ensures runs { Runs halt_stop result (S.state store.old) (S.state store.new) (S.durable store.old) (S.durable store.new) }
    ensures met { (d : Durable) → S.durable store.old ≡ Some d
        → Asks (Meets plan request.now epoch d) d (S.state store.old) (S.durable store.new) (S.state store.new) (S.may store.new) result }
    ensures kind { IfOk result (MeetsKind request.now.read) }
{
    let later = if request.snapshot {
        None
    } else {
        later_write(store, plan, request.first, epoch, request.read.path())?
    };
    fetch(store, plan, request, epoch, later)
}

/// What a read comes to: its answer; a cause to restart; it meets an attempt that isn't resolved here; or
/// it waits for what becomes of one that another target leads.
pub enum Served {
    Answer(Answer),
    Refused(Cause),
    Unresolved(AttemptId),
    Waits { on: AttemptId, leader: TargetId },
}

// Whether an attempt is among others.
fn is_one(attempts: &[AttemptId], attempt: AttemptId) -> bool
    ensures { Decides result (Contains attempts.now attempt) }
{
    attempts.contains(&attempt)
}

// What a read comes to that meets an attempt which isn't settled, and isn't one of the decided ones.
fn served_beside(me: TargetId, entries: &EntryTable, other: AttemptId) -> Served
    ensures { result ≡ beside_of other (other_leader_of me (entry_in entries.now.items other)) }
{
    match other_leader(me, entries, other) {
        Some(leader) => Served::Waits { on: other, leader },
        None => Served::Unresolved(other),
    }
}

/// Makes a read at an epoch that the lease covers. Decided attempts that stand in its way are settled
/// first, and then are no more among those that are to be settled.
///
/// # Errors
///
/// `Stopped` where the store stopped; else for want of memory.
pub fn serve<S: Store>(
    store: &mut S,
    plan: TargetPlan,
    knows: &mut Knows,
    request: &FetchRequest,
    epoch: Epoch,
) -> Result<Served, Halt>
    requires form { is_read_in_form request.now.read ≡ true }
    requires running { (S.state store.old).stopped ≡ false }
    requires enlisted { ForSome (S.durable store.old) (λ d. is_enlisted d (read_path request.now.read).cont ≡ true) }
    requires leads { ForSome (S.durable store.old) (LeadsWell plan (memory_of knows.old) knows.old.entries.items) }
    ensures served { (d : Durable) → S.durable store.old ≡ Some d → (m : TargetMemory) (reading : ℕ)
        → Part (FetchNext plan m reading request.now) (FetchStage.Reading epoch knows.old.leader.decided) (kept d (S.state store.old))
        (Serves plan m reading request.now epoch knows.old.leader.decided knows.new.leader.decided (kept d (S.state store.old)))
        (S.durable store.new) (S.state store.new) (S.may store.new) result }
    ensures kind { IfOk result (ServesKind request.now.read) }
    ensures leader { says halt_stop result ≡ false → knows.new.leader ≡ record knows.old.leader { decided = knows.new.leader.decided } }
    ensures keeps { Keeps plan halt_stop result (S.state store.old) (S.state store.new) (S.durable store.old) (S.durable store.new) knows.old knows.new }
{
    loop {
        match meet(store, plan, request, epoch)? {
            Met::Answer(answer) => return Ok(Served::Answer(answer)),
            Met::Refused(cause) => return Ok(Served::Refused(cause)),
            Met::Unsettled(other) => {
                if !is_one(knows.leader.decided(), other) {
                    return Ok(served_beside(plan.me, &knows.entries, other));
                }
                settle_decided(store, plan, knows, other)?;
            }
        }
    }
}
