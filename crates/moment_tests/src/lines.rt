// A plain list of versions.
use crate::place::{Place, akey, leads};
use base_types::epoch::Epoch;
use base_types::id::AttemptId;
use base_types::path::Path;
use vos_punches::moments::{is_earlier, same_moment};
use vos_settle::name::WriteName;
use vos_settle::task::WriteKind;
use vos_values::keys::Moment;

/// How many records an extent has.
pub(crate) const RECORDS: u32 = 2;

/// How many indexes of an array are written.
pub(crate) const INDEXES: u32 = 6;

// The first moment of all.
const FIRST: Moment = Moment {
    epoch: Epoch(0),
    minor: 0,
};

/// A version: where and how it wrote, when and whose it is, the byte that it set everywhere, or 0 where it is a
/// punch, and whether it is done.
#[derive(Clone, Copy)]
pub(crate) struct Line {
    pub place: Place,
    pub kind: WriteKind,
    pub at: Moment,
    pub by: AttemptId,
    pub byte: u8,
    pub done: bool,
}

impl Line {
    // Whether it says what stands in the single value of an akey, or at an index of its array.
    fn says(&self, akey: Place, index: Option<u32>) -> bool {
        match (self.kind, index) {
            (WriteKind::Punch, _) => leads(self.place, akey),
            (WriteKind::Single, None) => leads(self.place, akey),
            (WriteKind::Extent(low), Some(index)) => {
                leads(self.place, akey) && low <= index && index - low < RECORDS
            }
            _ => false,
        }
    }

    /// Whether it is that of a name of a path.
    pub(crate) fn is_named(&self, path: &Path, name: &WriteName) -> bool {
        let kind = match (self.kind, name.kind) {
            (WriteKind::Punch, WriteKind::Punch) | (WriteKind::Single, WriteKind::Single) => true,
            (WriteKind::Extent(low), WriteKind::Extent(other)) => low == other,
            _ => false,
        };
        kind && same_moment(self.at, name.moment()) && path.same(&name.path)
    }

    /// The blocks that it has: its own, its creations in three logs, and those of its bytes.
    pub(crate) fn blocks(&self) -> u32 {
        match self.kind {
            WriteKind::Punch => 1,
            WriteKind::Single => 6,
            WriteKind::Extent(_) => 5,
        }
    }
}

/// Whether a moment is among some.
pub(crate) fn has(moments: &[Moment], at: Moment) -> bool {
    moments.iter().any(|one| same_moment(*one, at))
}

fn same_attempt(one: AttemptId, other: AttemptId) -> bool {
    one.attempt == other.attempt
}

/// The unsettled versions of an attempt of some moments become done, or go.
pub(crate) fn settle(lines: &mut Vec<Line>, by: AttemptId, which: &[Moment], commits: bool) {
    if !commits {
        lines.retain(|line| line.done || !same_attempt(line.by, by) || !has(which, line.at));
        return;
    }
    for line in lines.iter_mut() {
        if same_attempt(line.by, by) && has(which, line.at) {
            line.done = true;
        }
    }
}

/// The done versions of some moments at or below a place go.
pub(crate) fn prune(lines: &mut Vec<Line>, place: Place, gone: &[Moment]) {
    lines.retain(|line| !line.done || !has(gone, line.at) || !leads(place, line.place));
}

/// The byte that stands in the single value of an akey below an epoch, or at an index of its array, or 0.
pub(crate) fn shown(lines: &[Line], akey: Place, index: Option<u32>, below: Epoch) -> u8 {
    let (mut last, mut byte) = (FIRST, 0);
    for line in lines {
        let counts = line.at.epoch.0 < below.0 && !is_earlier(line.at, last);
        if counts && line.says(akey, index) {
            last = line.at;
            byte = line.byte;
        }
    }
    byte
}

/// Whether there is a cell below a place, below an epoch.
pub(crate) fn has_cell(lines: &[Line], place: Place, below: Epoch) -> bool {
    for number in 0..8 {
        let akey = akey(number);
        let mut there = shown(lines, akey, None, below) > 0;
        for index in 0..INDEXES {
            there = there || shown(lines, akey, Some(index), below) > 0;
        }
        if there && leads(place, akey) {
            return true;
        }
    }
    false
}

/// The first epoch of an unsettled version, or the last of all where none is earlier.
pub(crate) fn settled_below(lines: &[Line], last: Epoch) -> Epoch {
    let mut least = last;
    for line in lines {
        if !line.done && line.at.epoch.0 < least.0 {
            least = line.at.epoch;
        }
    }
    least
}

/// The blocks of all versions.
pub(crate) fn blocks(lines: &[Line]) -> u32 {
    let mut all = 0u32;
    for line in lines {
        all = all.saturating_add(line.blocks());
    }
    all
}
