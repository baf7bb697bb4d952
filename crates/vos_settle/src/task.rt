// Which write is settled or pruned, and how.
ghost use Rattle.std.specs.Prelude.{◌≡◌};
ghost use Rattle.vos_settle.specs.Tasks.{is_update, is_wanted, same_attempt};

use base_types::id::AttemptId;
use vos_levels::change::Change;
use vos_values::keys::Moment;

/// What a write wrote at its path: a punch, a single value, or records of an array from an index on.
#[derive(Clone, Copy)]
pub enum WriteKind {
    Punch,
    Single,
    Extent(u32),
}

/// One write, and what becomes of it: its kind, when it was made, the attempt whose creations it has in
/// the logs on its way, and the change.
#[derive(Clone, Copy)]
pub struct Task {
    pub kind: WriteKind,
    pub at: Moment,
    pub by: AttemptId,
    pub change: Change,
}

/// An entry of a log: a punch, or a creation of an attempt.
#[derive(Clone, Copy)]
pub enum Which {
    Punch,
    Creation(AttemptId),
}

// Whether two attempts are one.
fn same_attempt(one: AttemptId, other: AttemptId) -> bool
    ensures { result ≡ same_attempt one other }
{
    one.client == other.client && one.command == other.command && one.attempt == other.attempt
}

impl WriteKind {
    /// Whether it is an update, and no punch.
    pub fn is_update(self) -> bool
        ensures { result ≡ is_update self }
    {
        !matches!(self, WriteKind::Punch)
    }
}

impl Which {
    /// Whether an entry is such a one: a punch or a creation, of an attempt.
    pub fn is_wanted(self, punch: bool, by: AttemptId) -> bool
        ensures { result ≡ is_wanted self punch by }
    {
        match self {
            Which::Punch => punch,
            Which::Creation(attempt) => !punch && same_attempt(by, attempt),
        }
    }
}
