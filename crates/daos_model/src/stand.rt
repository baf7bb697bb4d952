// What regions stand for, and the transactions that changed it.
use crate::map::Map;
use base_types::epoch::Epoch;
use base_types::id::ContId;
use base_types::items::Items;
use base_types::operation::Write;

/// A created snapshot of a container: what the container's cells held below the epoch.
#[derive(Drop)]
pub struct SnapMap {
    pub cont: ContId,
    pub epoch: Epoch,
    pub map: Map,
}

/// What regions stand for: the map now, and that of each created snapshot.
#[derive(Drop)]
pub struct Stand {
    pub now: Map,
    pub snaps: Items<SnapMap>,
}

/// A transaction that took effect: its epoch, and its writes in their order.
#[derive(Drop)]
pub struct Taken {
    pub epoch: Epoch,
    pub writes: Items<Write>,
}
