// How attempts end, and what a restart shows.
ghost use Rattle.std.specs.Prelude.{◌≡◌, IfOk};

use crate::epoch::{Epoch, TargetId};
use crate::id::AttemptId;
use crate::items::{Memory, TryCopy};
use crate::path::Path;

/// What set a floor, the epoch at or below which no write is taken: it stands from before this
/// run, or it is that of the restart of this number, of the snapshot of this epoch, or of the
/// aggregation of this number.
#[derive(Clone, Copy)]
pub enum FloorWhy {
    Opening,
    Restart(u32),
    Snapshot(Epoch),
    Aggregate(u32),
}

/// Why an attempt was told to restart.
#[derive(Drop)]
pub enum Cause {
    /// Another attempt read, at a later epoch, where this one writes.
    ReadLater {
        by: AttemptId,
        epoch: Epoch,
        path: Path,
    },
    /// Another attempt wrote, within the uncertainty of the clocks, where this one reads or writes.
    WriteLater {
        by: AttemptId,
        epoch: Epoch,
        path: Path,
    },
    /// A transaction wasn't resolved: another one that this one met, or this one itself.
    Unresolved {
        by: AttemptId,
    },
    /// The epoch lies at or below a floor of a target.
    Floor {
        target: TargetId,
        epoch: Epoch,
        why: FloorWhy,
    },
}

impl Cause {
    /// The same cause again.
    pub fn copy(&self) -> Result<Cause, Memory>
        ensures { IfOk result (λ cause. cause ≡ self.now) }
    {
        match self {
            Cause::ReadLater { by, epoch, path } => Ok(Cause::ReadLater {
                by: *by,
                epoch: *epoch,
                path: path.copy()?,
            }),
            Cause::WriteLater { by, epoch, path } => Ok(Cause::WriteLater {
                by: *by,
                epoch: *epoch,
                path: path.copy()?,
            }),
            Cause::Unresolved { by } => Ok(Cause::Unresolved { by: *by }),
            Cause::Floor { target, epoch, why } => Ok(Cause::Floor {
                target: *target,
                epoch: *epoch,
                why: *why,
            }),
        }
    }
}

/// How an attempt ended.
#[derive(Drop)]
pub enum Outcome {
    /// It took effect, or it has no write and all its reads were answered.
    Committed,
    /// The condition of this operation is false.
    CondFailed {
        op: u8,
    },
    /// It had no effect and may be tried again.
    Restart(Cause),
    /// A target needs more blocks than it has free.
    NoSpace {
        target: TargetId,
        need: u32,
        free: u32,
    },
    /// The issuing target's ticks are used up.
    EpochsSpent,
    /// The name stands for no snapshot.
    NoSnapshot,
    /// The target is down, and whether the attempt took effect isn't known.
    Unknown {
        target: TargetId,
    },
}

impl Outcome {
    /// The same outcome again.
    pub fn copy(&self) -> Result<Outcome, Memory>
        ensures { IfOk result (λ outcome. outcome ≡ self.now) }
    {
        match self {
            Outcome::Committed => Ok(Outcome::Committed),
            Outcome::CondFailed { op } => Ok(Outcome::CondFailed { op: *op }),
            Outcome::Restart(cause) => Ok(Outcome::Restart(cause.copy()?)),
            Outcome::NoSpace { target, need, free } => Ok(Outcome::NoSpace {
                target: *target,
                need: *need,
                free: *free,
            }),
            Outcome::EpochsSpent => Ok(Outcome::EpochsSpent),
            Outcome::NoSnapshot => Ok(Outcome::NoSnapshot),
            Outcome::Unknown { target } => Ok(Outcome::Unknown { target: *target }),
        }
    }
}

impl TryCopy for Outcome {
    fn copy(&self) -> Result<Outcome, Memory> {
        Outcome::copy(self)
    }
}
