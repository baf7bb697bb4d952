// Snapshots of one target are thawed.
ghost use Rattle.std.specs.Prelude.{◌≡◌, ◌==◌, ◌&&◌, true, false, filter, IfOk};
ghost use Rattle.std.specs.List.{list_any};
ghost use Rattle.std.specs.Option.{ForSome};
ghost use Rattle.base_types.specs.Keys.{same_key};
ghost use Rattle.daos_model.specs.Changes.{thawed};
ghost use Rattle.daos_model.specs.Durables.{is_frozen, is_snap_at};
ghost use Rattle.daos_model.specs.Family.{is_created};
ghost use Rattle.daos_model.specs.Opening.{drops_by};
ghost use Rattle.vos_store.specs.Refusals.{always_stop};
ghost use Rattle.target_parts.specs.Halts.{halt_stop};
ghost use Rattle.run_opening.specs.Left.{Leaves, first_dropped, first_left_with, first_thawed, or_not};
ghost use Rattle.run_opening.specs.Opened.{is_at_one_of, keeps, named};
ghost use Rattle.run_opening.specs.Steps.{AreFrozen, Goes, all_thawed, dropped, is_dropped, is_other_than, left_with};

use base_types::items::Memory;
use base_types::key::Key;
use base_types::script::{OldDecl, Script};
use base_types::snapshot::Snap;
use std::alloc::Global;
use target_parts::halt::Halt;
use vos_store::refusal::Stopped;
use vos_store::store::Store;

// Whether a name is among those that a script drops.
fn is_among(name: &Key, drops: &[Key]) -> bool
    ensures { result ≡ list_any (same_key name.now) drops.now }
{
    drops.iter().any(|drop| name.same(drop))
}

// Whether a script drops a snapshot by the name that this line declares.
fn is_dropped_by(drops: &[Key], snap: &Snap, old: &OldDecl) -> bool
    ensures { result ≡ drops_by drops.now (named snap.now) old.now }
{
    old.cont.0 == snap.cont.0 && old.epoch.0 == snap.epoch.0 && is_among(&old.name, drops)
}

// Whether a script drops a snapshot by a name that one of these lines declares.
fn is_dropped_by_one(drops: &[Key], snap: &Snap, olds: &[OldDecl]) -> bool
    ensures { result ≡ list_any (drops_by drops.now (named snap.now)) olds.now }
{
    olds.iter().any(|old| is_dropped_by(drops, snap, old))
}

// Whether a snapshot is created, and a script drops it.
fn is_dropped(script: &Script, snap: &Snap) -> bool
    ensures { result ≡ is_dropped script.now snap.now }
{
    snap.created && is_dropped_by_one(script.drops.as_slice(), snap, script.olds.as_slice())
}

// The created snapshots that a script drops.
fn dropped_of(alloc: Global, script: &Script, snaps: &[Snap]) -> Result<Vec<Snap>, Memory>
    ensures { IfOk result (λ gone. gone.items ≡ filter (is_dropped script.now) snaps.now) }
{
    let mut gone = Vec::new(alloc);
    for snap in snaps {
        if is_dropped(script, snap) {
            gone.push(*snap)?;
        }
    }
    Ok(gone)
}

// Whether a snapshot is one of some.
fn is_one_of(some: &[Snap], snap: &Snap) -> bool
    ensures { result ≡ is_at_one_of some.now snap.now }
{
    some.iter().any(|other| other.cont.0 == snap.cont.0 && other.epoch.0 == snap.epoch.0)
}

// Whether a snapshot is none of some.
fn is_other(some: &[Snap], snap: &Snap) -> bool
    ensures { result ≡ is_other_than some.now snap.now }
{
    !is_one_of(some, snap)
}

// The snapshots that are none of some.
fn others_of(alloc: Global, some: &[Snap], snaps: &[Snap]) -> Result<Vec<Snap>, Memory>
    ensures { IfOk result (λ gone. gone.items ≡ filter (is_other_than some.now) snaps.now) }
{
    let mut gone = Vec::new(alloc);
    for snap in snaps {
        if is_other(some, snap) {
            gone.push(*snap)?;
        }
    }
    Ok(gone)
}

// The created snapshots among some.
fn created_of(alloc: Global, snaps: &[Snap]) -> Result<Vec<Snap>, Memory>
    ensures { IfOk result (λ created. created.items ≡ filter is_created snaps.now) }
{
    let mut created = Vec::new(alloc);
    for snap in snaps {
        if snap.created {
            created.push(*snap)?;
        }
    }
    Ok(created)
}

// A frozen snapshot is thawed.
fn thaw_one<S: Store>(store: &mut S, snap: &Snap) -> Result<(), Stopped>
    requires running { (S.state store.old).stopped ≡ false }
    requires frozen { ForSome (S.durable store.old) (λ d. is_frozen d snap.now.cont snap.now.epoch ≡ true) }
    ensures goes { Goes always_stop (thawed snap.now.cont snap.now.epoch) result (S.state store.old) (S.state store.new) (S.durable store.old) (S.durable store.new) }
    ensures left { Leaves S.durable S.may (or_not (thawed snap.now.cont snap.now.epoch)) store.old store.new }
{
    store.thaw(snap.cont, snap.epoch)
}

// Frozen snapshots are thawed.
fn thaw_all<S: Store>(store: &mut S, gone: &[Snap]) -> Result<(), Stopped>
    requires running { (S.state store.old).stopped ≡ false }
    requires frozen { ForSome (S.durable store.old) (AreFrozen gone.now) }
    ensures goes { Goes always_stop (all_thawed gone.now) result (S.state store.old) (S.state store.new) (S.durable store.old) (S.durable store.new) }
    ensures left { Leaves S.durable S.may (first_thawed gone.now) store.old store.new }
{
    for snap in gone {
        thaw_one(store, snap)?;
    }
    Ok(())
}

// Frozen snapshots are thawed, unless the store stops.
fn thaw<S: Store>(store: &mut S, gone: &[Snap]) -> Result<(), Halt>
    requires running { (S.state store.old).stopped ≡ false }
    requires frozen { ForSome (S.durable store.old) (AreFrozen gone.now) }
    ensures goes { Goes halt_stop (all_thawed gone.now) result (S.state store.old) (S.state store.new) (S.durable store.old) (S.durable store.new) }
    ensures left { Leaves S.durable S.may (first_thawed gone.now) store.old store.new }
{
    match thaw_all(store, gone) {
        Ok(()) => Ok(()),
        Err(_stopped) => Err(Halt::Stopped),
    }
}

/// Target 0 thaws its created snapshots that a script drops.
///
/// # Errors
///
/// Where the store stopped, and for want of memory.
pub fn drop_snaps<S: Store>(alloc: Global, script: &Script, store: &mut S) -> Result<(), Halt>
    requires running { (S.state store.old).stopped ≡ false }
    ensures goes { Goes halt_stop (dropped script.now) result (S.state store.old) (S.state store.new) (S.durable store.old) (S.durable store.new) }
    ensures left { Leaves S.durable S.may (first_dropped script.now) store.old store.new }
{
    let snaps = store.snaps()?;
    let gone = dropped_of(alloc, script, snaps.as_slice())?;
    thaw(store, &gone)
}

/// The snapshots that a target holds as created.
///
/// # Errors
///
/// For want of memory.
pub fn created_at<S: Store>(alloc: Global, store: &S) -> Result<Vec<Snap>, Memory>
    requires running { (S.state store.now).stopped ≡ false }
    ensures { IfOk result (λ created. ForSome (S.durable store.now) (λ d. created.items ≡ filter is_created d.snaps)) }
{
    let snaps = store.snaps()?;
    created_of(alloc, snaps.as_slice())
}

/// A target thaws its snapshots that are none of some.
///
/// # Errors
///
/// Where the store stopped, and for want of memory.
pub fn thaw_others<S: Store>(alloc: Global, some: &[Snap], store: &mut S) -> Result<(), Halt>
    requires running { (S.state store.old).stopped ≡ false }
    ensures goes { Goes halt_stop (left_with some.now) result (S.state store.old) (S.state store.new) (S.durable store.old) (S.durable store.new) }
    ensures left { Leaves S.durable S.may (first_left_with some.now) store.old store.new }
{
    let snaps = store.snaps()?;
    let gone = others_of(alloc, some, snaps.as_slice())?;
    thaw(store, &gone)
}
