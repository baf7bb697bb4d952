// Where containers and snapshots stand, and the first place that isn't used.
ghost use Rattle.vos_tables.specs.Seats.{FindsCont, FindsSnap, FindsUnused};

use base_types::epoch::Epoch;
use base_types::id::ContId;
use base_types::snapshot::Snap;
use daos_model::durable::ContRow;
use vos_places::seek::{place_of_cont, place_of_snap, unused_cont, unused_snap};

/// A container, with its place.
pub fn cont_at(places: &[Option<ContRow>], cont: ContId) -> Option<(usize, ContRow)>
    ensures { FindsCont cont places.now result }
{
    let at = place_of_cont(places, cont)?;
    let row = places[at]?;
    Some((at, row))
}

/// A snapshot, with its place.
pub fn snap_at(places: &[Option<Snap>], cont: ContId, s: Epoch) -> Option<(usize, Snap)>
    ensures { FindsSnap cont s places.now result }
{
    let at = place_of_snap(places, cont, s)?;
    let snap = places[at]?;
    Some((at, snap))
}

/// A place that no container has.
pub fn free_cont(places: &[Option<ContRow>]) -> Option<usize>
    ensures { FindsUnused places.now result }
{
    unused_cont(places)
}

/// A place that no snapshot has.
pub fn free_snap(places: &[Option<Snap>]) -> Option<usize>
    ensures { FindsUnused places.now result }
{
    unused_snap(places)
}
