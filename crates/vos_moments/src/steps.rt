// What a step makes of the versions of an attempt.
ghost use Rattle.std.specs.Prelude.{◌≡◌};
ghost use Rattle.vos_moments.specs.Steps.{change_of};

use base_types::entry::Settle;
use base_types::id::AttemptId;
use vos_punches::below::levels::change::Change;

/// The change of an attempt's versions that a step makes.
pub fn change_of(attempt: AttemptId, step: Settle) -> Change
    ensures { result ≡ change_of attempt step }
{
    match step {
        Settle::Commit => Change::Commit(attempt),
        Settle::Abort | Settle::Confirm(_) | Settle::Forget => Change::Abort(attempt),
    }
}
