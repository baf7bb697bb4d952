// A change of one place of a container or of a snapshot.
ghost use Rattle.std.specs.Prelude.{◌≡◌, ◌≤◌, ◌+◌, length};
ghost use Rattle.vos_places.specs.Laws.{counter_range};
ghost use Rattle.vos_tables.specs.Changes.{range_of};

use crate::written::Written;
use base_types::snapshot::Snap;
use daos_model::durable::ContRow;
use vos_places::codec::{Counters, cont_bytes, counter_bytes, snap_bytes};

/// A change of one place of a container or of a snapshot. There are 256 of each, numbered from 0.
#[derive(Clone, Copy)]
pub enum Change {
    /// A place comes to hold this container.
    Cont(u8, ContRow),
    /// A place comes to hold this snapshot.
    Snapshot(u8, Snap),
    /// The place of a snapshot is given up.
    Unused(u8),
}

impl Change {
    /// What it writes, which lies among the fixed places.
    pub fn range(&self) -> Written
        ensures range { result ≡ range_of self.now }
        ensures low { 4096 ≤ result.place }
        ensures high { result.place + length result.bytes ≤ 28672 }
    {
        match self {
            Change::Cont(at, row) => Written::new(4096 + 64 * u64::from(*at), &cont_bytes(*row)),
            Change::Snapshot(at, s) => Written::new(20480 + 32 * u64::from(*at), &snap_bytes(*s)),
            Change::Unused(at) => Written::new(20480 + 32 * u64::from(*at), &[0]),
        }
    }
}

/// What counters write, which lies among the fixed places.
pub fn counters_range(counters: Counters) -> Written
    ensures range { result ≡ counter_range counters }
    ensures high { result.place + length result.bytes ≤ 48 }
{
    Written::new(24, &counter_bytes(counters))
}
