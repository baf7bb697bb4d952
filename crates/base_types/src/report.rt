// A report: what became of each attempt, and what else happened.
use crate::answer::Answer;
use crate::epoch::{Epoch, TargetId};
use crate::id::{AttemptId, ContId};
use crate::items::Items;
use crate::key::Key;
use crate::outcome::Outcome;

/// The number of an operation, and whether its path had a cell.
pub type Conds = Items<(u8, bool)>;

/// The number of an operation, and what its read was answered.
pub type Gots = Items<(u8, Answer)>;

/// An attempt of a command: the epoch that a target issued to it, if any, the conditions and reads
/// that were answered, and how it ended.
#[derive(Drop)]
pub struct Attempt {
    pub id: AttemptId,
    pub epoch: Option<Epoch>,
    pub conds: Conds,
    pub gots: Gots,
    pub outcome: Outcome,
}

/// A line of a report.
#[derive(Drop)]
pub enum Line {
    /// An attempt ended.
    Try(Attempt),
    /// A target stopped.
    Stop {
        number: u32,
        target: TargetId,
    },
    /// A target opened again.
    Restart {
        number: u32,
        target: TargetId,
        incarnation: u64,
        floor: Epoch,
    },
    /// A target froze a snapshot.
    Freeze {
        target: TargetId,
        cont: ContId,
        epoch: Epoch,
    },
    /// A snapshot was created.
    Snapshot {
        name: Key,
        cont: ContId,
        epoch: Epoch,
    },
    /// A target dropped versions up to an epoch.
    Aggregate {
        number: u32,
        target: TargetId,
        cont: ContId,
        upto: Epoch,
    },
    /// A target was given up.
    Down {
        target: TargetId,
    },
}

/// The lines of a report, in the order in which they came about.
pub type Lines = Items<Line>;

/// A report: the number of targets, its lines, and the least target that is down, if any.
#[derive(Drop)]
pub struct Report {
    pub targets: u8,
    pub lines: Lines,
    pub down: Option<TargetId>,
}
