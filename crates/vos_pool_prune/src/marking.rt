// What a container was aggregated to is marked on an open pool.
ghost use Rattle.std.specs.Prelude.{◌≡◌};
ghost use Rattle.daos_model.specs.Changes.{marked};
ghost use Rattle.vos_pool_settle.specs.Changing.{IsTidyChange};
ghost use Rattle.vos_pool_settle.specs.Settling.{OfItsKept};
ghost use Rattle.vos_store.specs.Conditions.{IsLeased};

use base_outside::region::Region;
use base_types::epoch::Epoch;
use base_types::id::ContId;
use vos_pool_settle::below::pool_base::opened::Opened;
use vos_store::refusal::Stopped;

/// Raises the aggregated-to epoch of a container, and its floor, to an epoch that the lease covers, each where it is
/// greater, by one commit. No version goes.
///
/// # Errors
///
/// `Stopped` comes only where a count of the region rose in this call, or it had stopped before.
pub fn mark<R: Region>(
    opened: &mut Opened<R>,
    cont: ContId,
    upto: Epoch,
    number: u32,
) -> Result<(), Stopped>
    requires { OfItsKept R.tells R.extent R.image opened.old (IsLeased upto) }
    ensures marked { IsTidyChange R.tells R.extent R.image R.may_leave R.count R.burns (marked cont upto number) opened.old opened.new result }
    ensures free { opened.new.blocks.map ≡ opened.old.blocks.map }
{
    match opened.tables.plan_mark(cont, upto, number) {
        None => opened.write(&[]),
        Some(change) => opened.write(&[change]),
    }
}
