// Whether two targets keep the same.
ghost use Rattle.std.specs.Prelude.{◌≡◌, Decides};

use crate::same::Same;
use base_types::entry::Entry;
use base_types::snapshot::Snap;
use daos_model::durable::{ContRow, Durable, Version};

impl Same for Version {
    fn is_same(&self, other: &Version) -> bool {
        self.epoch.is_same(&other.epoch)
            && self.minor.is_same(&other.minor)
            && self.by.is_same(&other.by)
            && self.done.is_same(&other.done)
            && self.write.is_same(&other.write)
    }
}

impl Same for Entry {
    fn is_same(&self, other: &Entry) -> bool {
        self.attempt.is_same(&other.attempt)
            && self.epoch.is_same(&other.epoch)
            && self.leader.is_same(&other.leader)
            && self.members.is_same(&other.members)
            && self.confirmed.is_same(&other.confirmed)
            && self.committed.is_same(&other.committed)
    }
}

impl Same for ContRow {
    fn is_same(&self, other: &ContRow) -> bool {
        self.cont.is_same(&other.cont)
            && self.floor.is_same(&other.floor)
            && self.why.is_same(&other.why)
            && self.aggregated.is_same(&other.aggregated)
            && self.number.is_same(&other.number)
    }
}

impl Same for Snap {
    fn is_same(&self, other: &Snap) -> bool {
        self.cont.is_same(&other.cont)
            && self.epoch.is_same(&other.epoch)
            && self.created.is_same(&other.created)
    }
}

impl Same for Durable {
    fn is_same(&self, other: &Durable) -> bool {
        self.versions.is_same(&other.versions)
            && self.entries.is_same(&other.entries)
            && self.conts.is_same(&other.conts)
            && self.snaps.is_same(&other.snaps)
            && self.lease.is_same(&other.lease)
            && self.incarnation.is_same(&other.incarnation)
    }
}
