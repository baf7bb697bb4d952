// What a target keeps, as plain data.
ghost use Rattle.std.specs.Prelude.{◌≡◌, IfOk};
ghost use Rattle.daos_model.specs.Durables.{same_attempt};

use base_types::entry::Entries;
use base_types::epoch::Epoch;
use base_types::id::{AttemptId, ContId};
use base_types::items::{Items, Memory, TryCopy};
use base_types::operation::Write;
use base_types::outcome::FloorWhy;
use base_types::snapshot::Snaps;

/// A write that a target keeps: the epoch of its transaction, its number in it, the attempt, and
/// whether it is done or still unsettled.
#[derive(Drop)]
pub struct Version {
    pub epoch: Epoch,
    pub minor: u8,
    pub by: AttemptId,
    pub done: bool,
    pub write: Write,
}

/// Versions, in the order of epochs, numbers and objects.
pub type Versions = Items<Version>;

impl TryCopy for Version {
    fn copy(&self) -> Result<Version, Memory> {
        Ok(Version {
            epoch: self.epoch,
            minor: self.minor,
            by: self.by,
            done: self.done,
            write: self.write.copy()?,
        })
    }
}

/// What a target keeps of a container beside its versions: the floor that it stored and what set
/// it, and the aggregated-to epoch with the number of its aggregation; both epochs begin at 0.
#[derive(Clone, Copy)]
pub struct ContRow {
    pub cont: ContId,
    pub floor: Epoch,
    pub why: FloorWhy,
    pub aggregated: Epoch,
    pub number: u32,
}

/// The containers that a target knows, in order; at most 256.
pub type ContRows = Items<ContRow>;

/// What a target keeps. Entries stand in the order of attempts, snapshots in that of containers and
/// epochs. The lease is in ticks; the incarnation counts the openings.
#[derive(Drop)]
pub struct Durable {
    pub versions: Versions,
    pub entries: Entries,
    pub conts: ContRows,
    pub snaps: Snaps,
    pub lease: u64,
    pub incarnation: u64,
}

/// Whether two attempts are one.
#[tactic(auto, unfolding(crate::specs::Durables::same_attempt))]
pub fn is_same_attempt(one: AttemptId, other: AttemptId) -> bool
    ensures { result ≡ same_attempt one other }
{
    one.client == other.client && one.command == other.command && one.attempt == other.attempt
}
