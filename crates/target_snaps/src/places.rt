// The places that a store has for snapshots.
ghost use Rattle.std.specs.Prelude.{◌≡◌, length, nat_le, false, IfOk};
ghost use Rattle.std.specs.List.{list_any};
ghost use Rattle.std.specs.Option.{ForSome};
ghost use Rattle.daos_model.specs.Durables.{is_frozen, is_snap_at};

use base_types::epoch::Epoch;
use base_types::id::ContId;
use base_types::items::Memory;
use base_types::snapshot::Snap;
use vos_store::store::Store;

/// Whether a container is frozen at an epoch, and whether all places for snapshots are used.
#[derive(Clone, Copy)]
pub struct Places {
    pub frozen: bool,
    pub full: bool,
}

// Whether a snapshot is that of a container at an epoch.
fn is_at(snap: &Snap, cont: ContId, epoch: Epoch) -> bool
    ensures { result ≡ is_snap_at cont epoch snap.now }
{
    snap.cont.0 == cont.0 && snap.epoch.0 == epoch.0
}

// Whether the snapshot of a container at an epoch is among these.
fn is_among(snaps: &[Snap], cont: ContId, epoch: Epoch) -> bool
    ensures { result ≡ list_any (is_snap_at cont epoch) snaps.now }
{
    snaps.iter().any(|snap| is_at(snap, cont, epoch))
}

/// Looks whether a store has frozen a container at an epoch, and whether it has a place for another snapshot.
///
/// # Errors
///
/// For want of memory.
pub fn look<S: Store>(store: &S, cont: ContId, epoch: Epoch) -> Result<Places, Memory>
    requires running { (S.state store.now).stopped ≡ false }
    ensures frozen { ForSome (S.durable store.now) (λ d. IfOk result (λ places. places.frozen ≡ is_frozen d cont epoch)) }
    ensures full { ForSome (S.durable store.now) (λ d. IfOk result (λ places. places.full ≡ nat_le 256 (length d.snaps))) }
{
    let snaps = store.snaps()?;
    let frozen = is_among(snaps.as_slice(), cont, epoch);
    let full = snaps.len() >= 256;
    Ok(Places { frozen, full })
}
