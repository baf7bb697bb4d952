// Whether two clients are in the same state.
ghost use Rattle.std.specs.Prelude.{◌≡◌, Decides};

use crate::same::Same;
use world_base::client::{ClientState, KnownSnap, Present, Stage};

impl Same for Stage {
    fn is_same(&self, other: &Stage) -> bool {
        match (self, other) {
            (Stage::Skip, Stage::Skip) => true,
            (Stage::Cond, Stage::Cond) => true,
            (Stage::Act, Stage::Act) => true,
            _ => false,
        }
    }
}

impl Same for Present {
    fn is_same(&self, other: &Present) -> bool {
        self.attempt.is_same(&other.attempt)
            && self.first.is_same(&other.first)
            && self.epoch.is_same(&other.epoch)
            && self.op.is_same(&other.op)
            && self.stage.is_same(&other.stage)
            && self.group.is_same(&other.group)
            && self.found.is_same(&other.found)
            && self.conds.is_same(&other.conds)
            && self.gots.is_same(&other.gots)
            && self.waits.is_same(&other.waits)
    }
}

impl Same for KnownSnap {
    fn is_same(&self, other: &KnownSnap) -> bool {
        self.name.is_same(&other.name) && self.epoch.is_same(&other.epoch)
    }
}

impl Same for ClientState {
    fn is_same(&self, other: &ClientState) -> bool {
        self.place.is_same(&other.place)
            && self.command.is_same(&other.command)
            && self.tracker.is_same(&other.tracker)
            && self.skip.is_same(&other.skip)
            && self.present.is_same(&other.present)
            && self.known.is_same(&other.known)
    }
}
