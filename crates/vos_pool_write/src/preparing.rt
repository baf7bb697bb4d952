// An entry and its writes are prepared in an open pool.
ghost use Rattle.std.specs.Prelude.{◌≡◌, ◌≤◌, ◌+◌, false, map, IsTrue, OnOk};
ghost use Rattle.std.specs.List.Sorted.{IsStrictlyIncreasing};
ghost use Rattle.std.specs.Option.{ForSome};
ghost use Rattle.daos_model.specs.Blocks.{blocks};
ghost use Rattle.daos_model.specs.Forms.{minor_of};
ghost use Rattle.daos_model.specs.Changes.{prepared};
ghost use Rattle.pmem_alloc.specs.Blocks.{free_count};
ghost use Rattle.pmem_pages.specs.Blocks.{Stops};
ghost use Rattle.vos_image.specs.Kept.{Stored};
ghost use Rattle.vos_pool_base.specs.Pool.{IfRunning, kept_of, may_of};
ghost use Rattle.vos_pool_base.specs.Tidy.{IfTidy, LeavesBut};
ghost use Rattle.vos_pool_stage.specs.Staged.{WhereTold};
ghost use Rattle.vos_pool_write.specs.Asked.{IsUnwritten};
ghost use Rattle.vos_pool_write.specs.Preparing.{HasNoneOf, MayBePrepared};
ghost use Rattle.vos_pool_write.specs.Several.{sum_at_most};
ghost use Rattle.vos_store.specs.Calls.{Makes};
ghost use Rattle.vos_store.specs.Refusals.{always_stop};

use crate::adding::add_entry;
use crate::several::add_versions;
use base_outside::region::Region;
use base_types::entry::Entry;
use base_types::operation::MinorWrite;
use vos_pool_base::opened::Opened;
use vos_store::refusal::Stopped;

// The versions come first, and count for nothing; the commit of the entry is the change.
fn write_all<R: Region>(
    opened: Opened<R>,
    entry: &Entry,
    writes: &[MinorWrite],
) -> (Opened<R>, Result<(), Stopped>)
    requires form { MayBePrepared opened.table.header.targets entry.now writes.now }
    requires here { WhereTold R.tells opened.blocks ((x : Stored) × HasNoneOf R.extent R.image opened entry.now writes.now x) }
    requires room { IfRunning opened (sum_at_most writes.now + 1 ≤ free_count opened.blocks) }
    ensures kept { Makes opened.blocks.undo.stopped always_stop (prepared entry.now writes.now) result.1 (kept_of R.tells R.extent R.image opened) (kept_of R.tells R.extent R.image result.0)
        (may_of R.tells R.extent R.may_leave opened) (may_of R.tells R.extent R.may_leave result.0) }
    ensures tidy { OnOk result.1 (IfTidy R.tells R.extent R.image result.0) }
    ensures free { free_count opened.blocks ≤ free_count result.0.blocks + (sum_at_most writes.now + 1) }
    ensures left { LeavesBut R.tells R.extent R.may_leave (sum_at_most writes.now + 1) opened result.0 }
    ensures size { R.extent result.0.blocks.undo.region ≡ R.extent opened.blocks.undo.region }
    ensures stops { Stops opened.blocks.undo.stopped result.0.blocks.undo.stopped (R.count opened.blocks.undo.region) (R.count result.0.blocks.undo.region)
        (R.burns opened.blocks.undo.region) (R.burns result.0.blocks.undo.region) result.1 }
{
    if opened.blocks.is_stopped() {
        return (opened, Err(Stopped));
    }
    match add_versions(opened, entry, writes) {
        (opened, Ok(())) => add_entry(opened, *entry),
        (opened, Err(Stopped)) => (opened, Err(Stopped)),
    }
}

/// Writes an entry and its writes, which aren't settled yet: both or neither.
///
/// # Errors
///
/// `Stopped` comes only where a count of the region rose in this call, or it had stopped before.
pub fn prepare<R: Region>(
    opened: Opened<R>,
    entry: &Entry,
    writes: &[MinorWrite],
) -> (Opened<R>, Result<(), Stopped>)
    requires form { MayBePrepared opened.table.header.targets entry.now writes.now }
    requires rising { IsStrictlyIncreasing (map minor_of writes.now) }
    requires tidy { IfTidy R.tells R.extent R.image opened }
    requires here { IfRunning opened (ForSome (kept_of R.tells R.extent R.image opened) (IsUnwritten entry.now writes.now)) }
    requires room { IfRunning opened (blocks writes.now ≤ free_count opened.blocks) }
    ensures kept { Makes opened.blocks.undo.stopped always_stop (prepared entry.now writes.now) result.1 (kept_of R.tells R.extent R.image opened) (kept_of R.tells R.extent R.image result.0)
        (may_of R.tells R.extent R.may_leave opened) (may_of R.tells R.extent R.may_leave result.0) }
    ensures tidy { OnOk result.1 (IfTidy R.tells R.extent R.image result.0) }
    ensures free { free_count opened.blocks ≤ free_count result.0.blocks + blocks writes.now }
    ensures left { LeavesBut R.tells R.extent R.may_leave (blocks writes.now) opened result.0 }
    ensures size { R.extent result.0.blocks.undo.region ≡ R.extent opened.blocks.undo.region }
    ensures stops { Stops opened.blocks.undo.stopped result.0.blocks.undo.stopped (R.count opened.blocks.undo.region) (R.count result.0.blocks.undo.region)
        (R.burns opened.blocks.undo.region) (R.burns result.0.blocks.undo.region) result.1 }
{
    let _size = opened.blocks.size();
    write_all(opened, entry, writes)
}
