// The attempts of one target are settled, and its entries forgotten.
ghost use Rattle.std.specs.Prelude.{◌≡◌, ◌≤◌, length, true, false, Some, IfOk};
ghost use Rattle.std.specs.Option.{ForSome};
ghost use Rattle.base_types.specs.declared.entry.Settle.TheVariants as settle;
ghost use Rattle.daos_model.specs.Changes.{settled};
ghost use Rattle.daos_model.specs.Durables.{entry_of};
ghost use Rattle.vos_store.specs.Refusals.{always_stop};
ghost use Rattle.target_parts.specs.Halts.{halt_stop};
ghost use Rattle.run_opening.specs.Left.{Leaves, first_ended, first_forgotten, nothing, or_not};
ghost use Rattle.run_opening.specs.Steps.{AllCommitted, Goes, ended, ended_at, forgotten, resolved_by, same};

use crate::resolving::{ending, is_resolved};
use base_types::entry::{Entries, Entry, Settle};
use target_parts::halt::Halt;
use vos_store::refusal::Stopped;
use vos_store::store::Store;

// The attempt of an entry is settled, if it is prepared.
fn settle_entry<S: Store>(store: &mut S, all: &[Entries], entry: &Entry) -> Result<(), Stopped>
    requires few { length all.now ≤ 64 }
    requires running { (S.state store.old).stopped ≡ false }
    requires here { ForSome (S.durable store.old) (λ d. entry_of d entry.now.attempt ≡ Some entry.now) }
    ensures goes { Goes always_stop (ended_at (resolved_by all.now) entry.now) result (S.state store.old) (S.state store.new) (S.durable store.old) (S.durable store.new) }
    ensures left { Leaves S.durable S.may (or_not (ended_at (resolved_by all.now) entry.now)) store.old store.new }
{
    if entry.committed {
        return Ok(());
    }
    let step = ending(is_resolved(all, entry.attempt));
    store.settle(entry.attempt, step)
}

/// The attempts of the entries of a target are settled: each that is prepared there is committed where it is resolved by the entries of
/// all targets, and else aborted.
///
/// # Errors
///
/// Where the store stopped.
pub fn settle_all<S: Store>(
    store: &mut S,
    all: &[Entries],
    entries: &[Entry],
) -> Result<(), Stopped>
    requires few { length all.now ≤ 64 }
    requires running { (S.state store.old).stopped ≡ false }
    requires own { ForSome (S.durable store.old) (λ d. entries.now ≡ d.entries) }
    ensures goes { Goes always_stop (ended (resolved_by all.now)) result (S.state store.old) (S.state store.new) (S.durable store.old) (S.durable store.new) }
    ensures left { Leaves S.durable S.may (first_ended (resolved_by all.now)) store.old store.new }
{
    for entry in entries {
        settle_entry(store, all, entry)?;
    }
    Ok(())
}

// A committed entry is forgotten.
fn forget_entry<S: Store>(store: &mut S, entry: &Entry) -> Result<(), Stopped>
    requires running { (S.state store.old).stopped ≡ false }
    requires here { ForSome (S.durable store.old) (λ d. entry_of d entry.now.attempt ≡ Some entry.now) }
    requires committed { ForSome (S.durable store.old) (λ _. entry.now.committed ≡ true) }
    ensures goes { Goes always_stop (settled entry.now.attempt settle.Forget) result (S.state store.old) (S.state store.new) (S.durable store.old) (S.durable store.new) }
    ensures left { Leaves S.durable S.may (or_not (settled entry.now.attempt settle.Forget)) store.old store.new }
{
    store.settle(entry.attempt, Settle::Forget)
}

// These entries of a target are forgotten.
fn forget<S: Store>(store: &mut S, entries: &[Entry]) -> Result<(), Stopped>
    requires running { (S.state store.old).stopped ≡ false }
    requires own { ForSome (S.durable store.old) (λ d. entries.now ≡ d.entries) }
    requires committed { ForSome (S.durable store.old) AllCommitted }
    ensures goes { Goes always_stop forgotten result (S.state store.old) (S.state store.new) (S.durable store.old) (S.durable store.new) }
    ensures left { Leaves S.durable S.may first_forgotten store.old store.new }
{
    for entry in entries {
        forget_entry(store, entry)?;
    }
    Ok(())
}

/// The entries of a target.
///
/// # Errors
///
/// Where the store stopped, and for want of memory.
pub fn entries_at<S: Store>(store: &mut S) -> Result<Entries, Halt>
    requires running { (S.state store.old).stopped ≡ false }
    ensures goes { Goes halt_stop same result (S.state store.old) (S.state store.new) (S.durable store.old) (S.durable store.new) }
    ensures own { IfOk result (λ entries. ForSome (S.durable store.old) (λ d. entries ≡ d.entries)) }
    ensures left { Leaves S.durable S.may nothing store.old store.new }
{
    match store.entries() {
        Ok(entries) => Ok(entries),
        Err(no) => Err(Halt::from(no)),
    }
}

/// The entries of a target, all of which are committed, are forgotten.
///
/// # Errors
///
/// Where the store stopped, and for want of memory.
pub fn forget_all<S: Store>(store: &mut S) -> Result<(), Halt>
    requires running { (S.state store.old).stopped ≡ false }
    requires committed { ForSome (S.durable store.old) AllCommitted }
    ensures goes { Goes halt_stop forgotten result (S.state store.old) (S.state store.new) (S.durable store.old) (S.durable store.new) }
    ensures left { Leaves S.durable S.may first_forgotten store.old store.new }
{
    let entries = entries_at(store)?;
    match forget(store, entries.as_slice()) {
        Ok(()) => Ok(()),
        Err(_stopped) => Err(Halt::Stopped),
    }
}
