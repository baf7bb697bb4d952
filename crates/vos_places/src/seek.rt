// Where a container or a snapshot has its place, and the first place that is unused.
ghost use Rattle.std.specs.Prelude.{◌≡◌};
ghost use Rattle.std.specs.List.{position};
ghost use Rattle.vos_places.specs.Tables.{is_cont_at, is_held_at, is_unused};

use base_types::epoch::Epoch;
use base_types::id::ContId;
use base_types::snapshot::Snap;
use daos_model::durable::ContRow;

// Whether a place has a container.
fn is_cont_at(place: &Option<ContRow>, cont: ContId) -> bool
    ensures { result ≡ is_cont_at cont place.now }
{
    match place {
        None => false,
        Some(row) => row.cont.0 == cont.0,
    }
}

// Whether a place has a snapshot.
fn is_held_at(place: &Option<Snap>, cont: ContId, s: Epoch) -> bool
    ensures { result ≡ is_held_at cont s place.now }
{
    match place {
        None => false,
        Some(snap) => snap.cont.0 == cont.0 && snap.epoch.0 == s.0,
    }
}

/// The first place of containers that isn't used.
pub fn unused_cont(places: &[Option<ContRow>]) -> Option<usize>
    ensures { result ≡ position is_unused places.now }
{
    places.iter().position(|place| place.is_none())
}

/// The first place of snapshots that isn't used.
pub fn unused_snap(places: &[Option<Snap>]) -> Option<usize>
    ensures { result ≡ position is_unused places.now }
{
    places.iter().position(|place| place.is_none())
}

/// The place of a container.
pub fn place_of_cont(places: &[Option<ContRow>], cont: ContId) -> Option<usize>
    ensures { result ≡ position (is_cont_at cont) places.now }
{
    places.iter().position(|place| is_cont_at(place, cont))
}

/// The place of a snapshot.
pub fn place_of_snap(places: &[Option<Snap>], cont: ContId, s: Epoch) -> Option<usize>
    ensures { result ≡ position (is_held_at cont s) places.now }
{
    places.iter().position(|place| is_held_at(place, cont, s))
}
