// What becomes of versions that are settled or pruned.
ghost use Rattle.std.specs.Prelude.{◌≡◌};
ghost use Rattle.vos_levels.specs.Changes.{keeps, same_attempt, takes};

use base_types::id::AttemptId;

/// The unsettled versions of an attempt become done, or go; or done ones go.
#[derive(Clone, Copy)]
pub enum Change {
    Commit(AttemptId),
    Abort(AttemptId),
    Prune,
}

// Whether two attempts are one.
fn same_attempt(one: AttemptId, other: AttemptId) -> bool
    ensures { result ≡ same_attempt one other }
{
    one.client == other.client && one.command == other.command && one.attempt == other.attempt
}

impl Change {
    /// Whether it takes a version of an attempt, done or not.
    pub fn takes(self, by: AttemptId, done: bool) -> bool
        ensures { result ≡ takes self by done }
    {
        match self {
            Change::Commit(attempt) | Change::Abort(attempt) => {
                same_attempt(by, attempt) && !done
            }
            Change::Prune => done,
        }
    }

    /// Whether what it takes stays, as done.
    pub fn keeps(self) -> bool
        ensures { result ≡ keeps self }
    {
        matches!(self, Change::Commit(_))
    }
}
