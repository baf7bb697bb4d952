// One version goes from an open pool.
ghost use Rattle.std.specs.Prelude.{◌≤◌, ◌+◌, OnOk, length};
ghost use Rattle.pmem_alloc.specs.Blocks.{free_count};
ghost use Rattle.vos_pool_base.specs.Tidy.{IfTidy};
ghost use Rattle.vos_pool_settle.specs.Removing.{IsRemoval, without_version};
ghost use Rattle.vos_pool_settle.specs.Settling.{OfItsKept};
ghost use Rattle.vos_pool_turns.specs.vos_turns.Turns.{CanBeNamed};

use base_outside::region::Region;
use daos_model::durable::Version;
use std::slice::from_ref;
use vos_levels::change::Change;
use vos_pool_base::opened::Opened;
use vos_pool_turns::below::turns::entries::EntryStep;
use vos_pool_turns::pool::turn_pool;
use vos_store::refusal::Stopped;

/// Removes a version that is done, by one commit, which gives back a block at least. Of one that isn't nothing changes.
///
/// # Errors
///
/// `Stopped` comes only where a count of the region rose in this call, or it had stopped before.
pub fn remove_version<R: Region>(
    opened: Opened<R>,
    version: &Version,
) -> (Opened<R>, Result<(), Stopped>)
    requires named { CanBeNamed version.now }
    requires tidy { IfTidy R.tells R.extent R.image opened }
    ensures removed { IsRemoval R.tells R.extent R.image R.may_leave R.count R.burns version.now opened result.0 result.1 }
    ensures gives { OnOk result.1 (OfItsKept R.tells R.extent R.image opened (λ d. free_count opened.blocks + length d.versions ≤ free_count result.0.blocks + length (without_version version.now d).versions)) }
{
    let _size = opened.blocks.size();
    turn_pool(
        opened,
        Change::Prune,
        from_ref(version),
        version.by,
        EntryStep::Keep,
    )
}
