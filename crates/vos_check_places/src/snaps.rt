// Places of snapshots: 256 of 32 bytes from 20480 on.
ghost use Rattle.std.specs.Prelude.{◌≡◌, ℕ, ◌+◌, ◌≤◌, ◌==◌, ◌||◌, length, List, [], ◌∷◌, IfOk, IfErr};
ghost use Rattle.std.specs.List.{list_any};
ghost use Rattle.base_outside.specs.Images.{Image};
ghost use Rattle.daos_model.specs.Durables.{is_snap_at};
ghost use Rattle.vos_image.specs.Content.{Content};
ghost use Rattle.vos_image.specs.Places.{is_new_snap, read_snap, snap_in};
ghost use Rattle.vos_places.specs.Tables.{AreNewSnaps, HoldSnaps, HoldsSnap, is_held_at, those};
ghost use Rattle.vos_check_places.specs.Parts.{snaps_reading};
ghost use Rattle.vos_check_places.specs.Shown.{AreSnapFields, IsShown, StopsAt};

use crate::conts::is_there;
use crate::fault::Fault;
use crate::fields::{eight_at, sixteen_at, zeros_at};
use crate::judge::{Rule, judge};
use base_types::epoch::Epoch;
use base_types::id::ContId;
use base_types::snapshot::Snap;
use daos_model::durable::ContRow;
use std::alloc::Global;

// The fields of a place as they stand there: how it is used, the epoch and the uuid.
#[derive(Clone, Copy)]
struct SnapFields {
    used: u8,
    epoch: u64,
    uuid: u128,
}

fn fields_at(fixed: &[u8], p: usize) -> SnapFields
    requires { p + 32 ≤ length fixed.now }
    ensures { (f : Image) → IsShown f fixed.now p (p + 32) → AreSnapFields f p result }
{
    SnapFields {
        used: fixed[p],
        epoch: eight_at(fixed, p + 8),
        uuid: sixteen_at(fixed, p + 16),
    }
}

// What fields say of a snapshot.
fn snap_of(fields: SnapFields) -> Snap
    ensures { (f : Image) (p : ℕ) → AreSnapFields f p fields → result ≡ snap_in f p }
{
    Snap {
        cont: ContId(fields.uuid),
        epoch: Epoch(fields.epoch),
        created: fields.used == 2,
    }
}

// Whether a place has a snapshot.
fn is_held_at(place: &Option<Snap>, cont: ContId, s: Epoch) -> bool
    ensures { result ≡ is_held_at cont s place.now }
{
    match place {
        None => false,
        Some(snap) => snap.cont.0 == cont.0 && snap.epoch.0 == s.0,
    }
}

fn has_snap(snaps: &[Option<Snap>], cont: ContId, s: Epoch) -> bool
    ensures { result ≡ list_any (is_held_at cont s) snaps.now }
{
    snaps.iter().any(|snap| is_held_at(snap, cont, s))
}

// Whether one of some places has a snapshot.
#[tactic(auto, using(crate::proofs::SnapPlaces::any_held))]
fn is_held(snaps: &[Option<Snap>], cont: ContId, s: Epoch) -> bool
    ensures { result ≡ list_any (is_snap_at cont s) (those snaps.now) }
{
    has_snap(snaps, cont, s)
}

// Whether a snapshot is of a container that is there, and in none of the places before it.
fn is_new_snap(conts: &[Option<ContRow>], snaps: &[Option<Snap>], snap: Snap) -> bool
    ensures { result ≡ is_new_snap (those conts.now) (those snaps.now) snap }
{
    is_there(conts, snap.cont) && !is_held(snaps, snap.cont, snap.epoch)
}

// Whether a place is unused, or its snapshot is new.
fn is_new(used: u8, conts: &[Option<ContRow>], snaps: &[Option<Snap>], snap: Snap) -> bool
    ensures { result ≡ ((used == 0) || is_new_snap (those conts.now) (those snaps.now) snap) }
{
    used == 0 || is_new_snap(conts, snaps, snap)
}

// What a place holds, after some others.
fn read_snap(
    fixed: &[u8],
    p: usize,
    conts: &[Option<ContRow>],
    snaps: &[Option<Snap>],
) -> Result<Option<Snap>, Fault>
    requires { p + 32 ≤ length fixed.now }
    ensures held { IfOk result (λ o. (c : Content) → IsShown c.bytes fixed.now p (p + 32) → HoldsSnap c p o) }
    ensures new { IfOk result (λ o. AreNewSnaps (those conts.now) (those snaps.now) (those (o ∷ []))) }
    ensures foreign { IfErr result (λ e. (c : Content) → IsShown c.bytes fixed.now p (p + 32) → (led : List ℕ) → StopsAt (read_snap c (those conts.now) p (those snaps.now) led) c.bytes e) }
{
    let x = fields_at(fixed, p);
    let snap = snap_of(x);
    let rules = [
        Rule(p, x.used <= 2),
        zeros_at(fixed, p + 1, 7),
        Rule(p + 16, is_new(x.used, conts, snaps, snap)),
    ];
    judge(fixed, &rules)?;
    if x.used == 0 {
        return Ok(None);
    }
    Ok(Some(snap))
}

/// What each place holds.
pub(crate) fn read_snaps(
    alloc: Global,
    fixed: &[u8],
    conts: &[Option<ContRow>],
) -> Result<Vec<Option<Snap>>, Fault>
    requires { 28672 ≤ length fixed.now }
    ensures held { IfOk result (λ snaps. (c : Content) → IsShown c.bytes fixed.now 20480 28672 → HoldSnaps c 20480 snaps.items) }
    ensures many { IfOk result (λ snaps. length snaps.items ≡ 256) }
    ensures new { IfOk result (λ snaps. AreNewSnaps (those conts.now) [] (those snaps.items)) }
    ensures foreign { IfErr result (λ e. (c : Content) → IsShown c.bytes fixed.now 20480 28672 → (led : List ℕ) → StopsAt (snaps_reading c (those conts.now) led) c.bytes e) }
{
    let mut snaps = Vec::new(alloc);
    for i in 0..256 {
        let snap = read_snap(fixed, 20480 + 32 * i, conts, &snaps)?;
        snaps.push(snap)?;
    }
    Ok(snaps)
}
