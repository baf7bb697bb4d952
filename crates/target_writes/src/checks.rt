// A target checks writes, and stores them.
ghost use Rattle.std.specs.Prelude.{◌≡◌, ◌/◌, ◌≤◌, ◌<◌, All, List, Option, IfOk, OnErr, Some, None, true, false, vec_len, vec_capacity};
ghost use Rattle.world_ended.specs.Asking.{AreRefusals};
ghost use Rattle.std.specs.Option.{ForSome};
ghost use Rattle.base_types.specs.declared.epoch.Epoch.{Epoch as EpochOf};
ghost use Rattle.base_types.specs.declared.outcome.Outcome.TheVariants as outcome;
ghost use Rattle.base_types.specs.declared.shown.Shown.{Shown as ShownOf};
ghost use Rattle.daos_model.specs.declared.durable.Durable.{Durable};
ghost use Rattle.daos_model.specs.Durables.{is_enlisted};
ghost use Rattle.daos_model.specs.Forms.{is_path_in_form, is_write_in_form};
ghost use Rattle.vos_store.specs.Conditions.{IsPreparable};
ghost use Rattle.world_base.specs.Commits.{IsAllowed, first_floor};
ghost use Rattle.target_parts.specs.Halts.{halt_stop};
ghost use Rattle.target_parts.specs.Knowing.{HasEpochs, LeadsWell, memory_of};
ghost use Rattle.target_parts.specs.Parts.{Asks, Runs};
ghost use Rattle.target_writes.specs.Checks.{AreEnlisted, CanStore, Checks, ChecksOne, PreparesOrNot, entries_then};
ghost use Rattle.target_parts.specs.Standing.{Keeps};

use base_types::entry::Entry;
use base_types::epoch::{Epoch, TargetId};
use base_types::operation::MinorWrite;
use base_types::outcome::{Cause, Outcome};
use base_types::path::Path;
use daos_model::accounts::blocks;
use dtx_entries::table::EntryTable;
use target_parts::halt::Halt;
use target_parts::knows::Knows;
use target_parts::later::later_write;
use vos_stamp::checks::{check_write, first_cause};
use vos_stamp::stamps::Stamps;
use vos_store::refusal::PrepareNo;
use vos_store::store::Store;
use world_base::target::TargetPlan;

// Why a write on a path is refused, if it is.
fn check<S: Store>(
    store: &mut S,
    stamps: &Stamps,
    plan: TargetPlan,
    first: Option<Epoch>,
    epoch: Epoch,
    path: &Path,
) -> Result<Option<Cause>, Halt>
    requires form { is_path_in_form path.now ≡ true }
    requires running { (S.state store.old).stopped ≡ false }
    requires enlisted { ForSome (S.durable store.old) (λ d. is_enlisted d path.now.cont ≡ true) }
    requires epochs { ForSome (S.durable store.old) HasEpochs }
    ensures runs { Runs halt_stop result (S.state store.old) (S.state store.new) (S.durable store.old) (S.durable store.new) }
    ensures checked { (d : Durable) → S.durable store.old ≡ Some d
        → Asks (ChecksOne plan (S.state store.old).opening first epoch d stamps.now.reads path.now) d
        (S.state store.old) (S.durable store.new) (S.state store.new) (S.may store.new) result }
{
    let floor = store.floor(path.cont);
    let later = later_write(store, plan, first, epoch, path)?;
    Ok(check_write(stamps, path, epoch, floor, plan.me, later)?)
}

// Why writes are refused, if they are: by a floor, else by a later read, else by a later write.
fn refusal<S: Store>(
    store: &mut S,
    stamps: &Stamps,
    plan: TargetPlan,
    first: Option<Epoch>,
    epoch: Epoch,
    writes: &[MinorWrite],
) -> Result<Option<Cause>, Halt>
    requires form { All (λ w. is_write_in_form w.write ≡ true) writes.now }
    requires running { (S.state store.old).stopped ≡ false }
    requires enlisted { ForSome (S.durable store.old) (AreEnlisted writes.now) }
    requires epochs { ForSome (S.durable store.old) HasEpochs }
    ensures runs { Runs halt_stop result (S.state store.old) (S.state store.new) (S.durable store.old) (S.durable store.new) }
    ensures checked { (d : Durable) → S.durable store.old ≡ Some d
        → Asks (Checks plan (S.state store.old).opening first epoch d stamps.now.reads writes.now) d
        (S.state store.old) (S.durable store.new) (S.state store.new) (S.may store.new) result }
{
    let mut refused = None;
    for write in writes {
        let cause = check(store, stamps, plan, first, epoch, write.write.path())?;
        refused = first_cause(refused, cause);
    }
    Ok(refused)
}

// There is no space.
fn no_space(target: TargetId, need: u32, free: u32) -> Outcome
    ensures { result ≡ outcome.NoSpace target need free }
{
    Outcome::NoSpace { target, need, free }
}

// Stores writes with their entry, unless there is no space for them.
fn store_writes<S: Store>(
    store: &mut S,
    plan: TargetPlan,
    entries: &mut EntryTable,
    entry: &Entry,
    writes: &[MinorWrite],
) -> Result<Option<Outcome>, Halt>
    requires form { IsPreparable (S.state store.old) entry.now writes.now }
    requires running { (S.state store.old).stopped ≡ false }
    requires can { ForSome (S.durable store.old) (CanStore entry.now writes.now) }
    requires floors { ForSome (S.durable store.old) (λ d. first_floor plan (S.state store.old).opening entry.now.epoch d writes.now ≡ None) }
    ensures runs { Runs halt_stop result (S.state store.old) (S.state store.new) (S.durable store.old) (S.durable store.new) }
    ensures stored { (d : Durable) → S.durable store.old ≡ Some d → (first : Option EpochOf) (stamps : List ShownOf)
        → IsAllowed plan (S.state store.old).opening first entry.now.epoch d stamps writes.now
        → PreparesOrNot plan (S.state store.old).opening first stamps entry.now writes.now d (S.state store.old) (S.durable store.new) (S.state store.new) (S.may store.new) result }
    ensures entries { IfOk result (λ how. entries.new.items ≡ entries_then entry.now how entries.old.items) }
    ensures refused { IfOk result AreRefusals }
    ensures kept { OnErr result (entries.new.items ≡ entries.old.items) }
{
    let need = blocks(writes);
    let free = store.free();
    if free < need {
        return Ok(Some(no_space(plan.me, need, free)));
    }
    entries.reserve()?;
    match store.prepare(entry, writes) {
        Ok(()) => {
            entries.put(*entry);
            Ok(None)
        }
        Err(PrepareNo::NoSpace { .. }) => unreachable!(),
        Err(PrepareNo::Stopped) => Err(Halt::Stopped),
        Err(PrepareNo::Memory) => Err(Halt::Memory),
    }
}

/// Checks writes at the epoch of their entry, which the lease covers, and stores them with it; or tells
/// why they are refused.
///
/// # Errors
///
/// `Stopped` where the store stopped; else for want of memory.
pub fn prepare<S: Store>(
    store: &mut S,
    plan: TargetPlan,
    knows: &mut Knows,
    entry: &Entry,
    first: Option<Epoch>,
    writes: &[MinorWrite],
) -> Result<Option<Outcome>, Halt>
    requires form { IsPreparable (S.state store.old) entry.now writes.now }
    requires running { (S.state store.old).stopped ≡ false }
    requires heard { entry.now.epoch.0 / 256 ≤ knows.old.hlc.ticks }
    requires can { ForSome (S.durable store.old) (CanStore entry.now writes.now) }
    requires leads { ForSome (S.durable store.old) (LeadsWell plan (memory_of knows.old) knows.old.entries.items) }
    ensures prepared { (d : Durable) → S.durable store.old ≡ Some d
        → PreparesOrNot plan (S.state store.old).opening first knows.old.stamps.reads entry.now writes.now d (S.state store.old) (S.durable store.new) (S.state store.new) (S.may store.new) result }
    ensures leader { knows.new.leader ≡ knows.old.leader }
    ensures refused { IfOk result AreRefusals }
    ensures keeps { Keeps plan halt_stop result (S.state store.old) (S.state store.new) (S.durable store.old) (S.durable store.new) knows.old knows.new }
{
    match refusal(store, &knows.stamps, plan, first, entry.epoch, writes)? {
        Some(cause) => Ok(Some(Outcome::Restart(cause))),
        None => store_writes(store, plan, &mut knows.entries, entry, writes),
    }
}
