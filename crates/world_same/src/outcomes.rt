// Whether two outcomes, or what they show, are the same.
ghost use Rattle.std.specs.Prelude.{◌≡◌, Decides};

use crate::same::{Same, three};
use base_types::outcome::{Cause, FloorWhy, Outcome};
use base_types::shown::Shown;

impl Same for FloorWhy {
    fn is_same(&self, other: &FloorWhy) -> bool {
        match (self, other) {
            (FloorWhy::Opening, FloorWhy::Opening) => true,
            (FloorWhy::Restart(one), FloorWhy::Restart(two)) => one.is_same(two),
            (FloorWhy::Snapshot(one), FloorWhy::Snapshot(two)) => one.is_same(two),
            (FloorWhy::Aggregate(one), FloorWhy::Aggregate(two)) => one.is_same(two),
            _ => false,
        }
    }
}

impl Same for Shown {
    fn is_same(&self, other: &Shown) -> bool {
        three(
            (&self.by, &self.epoch, &self.path),
            (&other.by, &other.epoch, &other.path),
        )
    }
}

impl Same for Cause {
    fn is_same(&self, other: &Cause) -> bool {
        match (self, other) {
            (
                Cause::ReadLater { by, epoch, path },
                Cause::ReadLater {
                    by: other_by,
                    epoch: other_epoch,
                    path: other_path,
                },
            ) => three((by, epoch, path), (other_by, other_epoch, other_path)),
            (
                Cause::WriteLater { by, epoch, path },
                Cause::WriteLater {
                    by: other_by,
                    epoch: other_epoch,
                    path: other_path,
                },
            ) => three((by, epoch, path), (other_by, other_epoch, other_path)),
            (Cause::Unresolved { by }, Cause::Unresolved { by: other_by }) => by.is_same(other_by),
            (
                Cause::Floor { target, epoch, why },
                Cause::Floor {
                    target: other_target,
                    epoch: other_epoch,
                    why: other_why,
                },
            ) => target.is_same(other_target)
                && epoch.is_same(other_epoch)
                && why.is_same(other_why),
            _ => false,
        }
    }
}

impl Same for Outcome {
    fn is_same(&self, other: &Outcome) -> bool {
        match (self, other) {
            (Outcome::Committed, Outcome::Committed) => true,
            (Outcome::CondFailed { op }, Outcome::CondFailed { op: other_op }) => op.is_same(
                other_op,
            ),
            (Outcome::Restart(one), Outcome::Restart(two)) => one.is_same(two),
            (
                Outcome::NoSpace { target, need, free },
                Outcome::NoSpace {
                    target: other_target,
                    need: other_need,
                    free: other_free,
                },
            ) => target.is_same(other_target)
                && need.is_same(other_need)
                && free.is_same(other_free),
            (Outcome::EpochsSpent, Outcome::EpochsSpent) => true,
            (Outcome::NoSnapshot, Outcome::NoSnapshot) => true,
            (
                Outcome::Unknown { target },
                Outcome::Unknown {
                    target: other_target,
                },
            ) => target.is_same(other_target),
            _ => false,
        }
    }
}
