// A step of an attempt is made on an open pool.
ghost use Rattle.std.specs.Prelude.{All};
ghost use Rattle.vos_pool_base.specs.Tidy.{IfTidy};
ghost use Rattle.vos_pool_settle.specs.Settling.{HaveAllOf, IsSettling, NamesMember, OfItsKept};
ghost use Rattle.vos_store.specs.Conditions.{CanSettle};
ghost use Rattle.vos_pool_turns.specs.vos_turns.Turns.{CanBeNamed};

use crate::abort::abort;
use crate::steps::{commit, confirm, forget};
use base_outside::region::Region;
use base_types::entry::Settle;
use base_types::id::AttemptId;
use daos_model::durable::Version;
use vos_pool_base::opened::Opened;
use vos_store::refusal::Stopped;

/// Makes a step of an attempt, all of whose unsettled versions are among these. The number of a member that is
/// confirmed is below 64.
///
/// # Errors
///
/// `Stopped` comes only where a count of the region rose in this call, or it had stopped before.
pub fn settle<R: Region>(
    opened: Opened<R>,
    attempt: AttemptId,
    step: Settle,
    versions: &[Version],
) -> (Opened<R>, Result<(), Stopped>)
    requires named { All CanBeNamed versions.now }
    requires member { NamesMember step }
    requires tidy { IfTidy R.tells R.extent R.image opened }
    requires all { OfItsKept R.tells R.extent R.image opened (HaveAllOf attempt versions.now) }
    requires here { OfItsKept R.tells R.extent R.image opened (CanSettle attempt step) }
    ensures { IsSettling R.tells R.extent R.image R.may_leave R.count R.burns attempt step opened result.0 result.1 }
{
    match step {
        Settle::Commit => commit(opened, attempt, versions),
        Settle::Abort => abort(opened, attempt, versions),
        Settle::Confirm(target) => confirm(opened, attempt, target),
        Settle::Forget => forget(opened, attempt),
    }
}
