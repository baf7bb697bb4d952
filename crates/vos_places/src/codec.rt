// Fixed places as bytes.
ghost use Rattle.std.specs.Prelude.{◌≡◌};
ghost use Rattle.vos_places.specs.Codec.{cont_bytes, counter_bytes, snap_bytes, snap_kind, why_kind, why_number};

use crate::fields::write_fields;
use base_types::outcome::FloorWhy;
use base_types::snapshot::Snap;
use daos_model::durable::ContRow;

// The reason of a floor.
fn why_kind(why: FloorWhy) -> u8
    ensures { result ≡ why_kind why }
{
    match why {
        FloorWhy::Opening | FloorWhy::Restart(_) => 0,
        FloorWhy::Snapshot(_) => 2,
        FloorWhy::Aggregate(_) => 3,
    }
}

// The epoch of the snapshot or the number of the aggregation that set a floor.
fn why_number(why: FloorWhy) -> u64
    ensures { result ≡ why_number why }
{
    match why {
        FloorWhy::Opening | FloorWhy::Restart(_) => 0,
        FloorWhy::Snapshot(s) => s.0,
        FloorWhy::Aggregate(n) => u64::from(n),
    }
}

/// The bytes of the place of a container.
#[tactic(auto, unfolding(crate::specs::Codec::cont_bytes))]
pub fn cont_bytes(row: ContRow) -> [u8; 64]
    ensures { result ≡ cont_bytes row }
{
    let mut bytes = [0; 64];
    let fields = [
        (1, 1),
        (1, u128::from(why_kind(row.why))),
        (6, 0),
        (8, u128::from(row.floor.0)),
        (8, u128::from(why_number(row.why))),
        (8, u128::from(row.aggregated.0)),
        (8, u128::from(row.number)),
        (8, 0),
        (16, row.cont.0),
    ];
    write_fields(&mut bytes, &fields);
    bytes
}

/// The bytes of the place of a snapshot.
#[tactic(auto, unfolding(crate::specs::Codec::snap_bytes))]
pub fn snap_bytes(snap: Snap) -> [u8; 32]
    ensures { result ≡ snap_bytes snap }
{
    let mut bytes = [0; 32];
    let kind = if snap.created { 2 } else { 1 };
    let fields = [
        (1, kind),
        (7, 0),
        (8, u128::from(snap.epoch.0)),
        (16, snap.cont.0),
    ];
    write_fields(&mut bytes, &fields);
    bytes
}

/// What changes of what an image says of itself: its incarnation, its lease in ticks, and
/// the roots of its objects and of its entries.
#[derive(Clone, Copy)]
pub struct Counters {
    pub incarnation: u64,
    pub lease: u64,
    pub objects: u32,
    pub entries: u32,
}

/// Their bytes, which stand from 24 on.
#[tactic(auto, unfolding(crate::specs::Codec::counter_bytes))]
pub fn counter_bytes(counters: Counters) -> [u8; 24]
    ensures { result ≡ counter_bytes counters }
{
    let mut bytes = [0; 24];
    let fields = [
        (8, u128::from(counters.incarnation)),
        (8, u128::from(counters.lease)),
        (4, u128::from(counters.objects)),
        (4, u128::from(counters.entries)),
    ];
    write_fields(&mut bytes, &fields);
    bytes
}
