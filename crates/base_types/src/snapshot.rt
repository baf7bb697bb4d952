// The snapshots that a target keeps.
use crate::epoch::Epoch;
use crate::id::ContId;
use crate::items::Items;

/// A snapshot of a container as of an epoch: frozen here, and created once every target froze it.
#[derive(Clone, Copy)]
pub struct Snap {
    pub cont: ContId,
    pub epoch: Epoch,
    pub created: bool,
}

/// Snapshots, each container and epoch once; at most 256.
pub type Snaps = Items<Snap>;
