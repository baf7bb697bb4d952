// The versions of an entry come to an open pool, one after another.
ghost use Rattle.std.specs.Prelude.{◌≡◌, ◌≤◌, ◌+◌, false, IsTrue, OnOk};
ghost use Rattle.pmem_alloc.specs.Blocks.{free_count};
ghost use Rattle.pmem_pages.specs.Blocks.{Stops};
ghost use Rattle.vos_image.specs.Kept.{Stored};
ghost use Rattle.vos_pool_base.specs.Pool.{kept_of, may_of};
ghost use Rattle.vos_pool_base.specs.Tidy.{LeavesBut};
ghost use Rattle.vos_pool_stage.specs.Staged.{IsQuietCall};
ghost use Rattle.vos_pool_write.specs.Several.{AllHaveCome, AllMayBeStaged, AllMayCome, stamp_of, sum_at_most};

use crate::adding::add_version;
use base_outside::region::Region;
use base_types::entry::Entry;
use base_types::operation::MinorWrite;
use vos_path::stamp::Stamp;
use vos_pool_base::opened::Opened;
use vos_store::refusal::Stopped;
use vos_values::keys::Moment;

// When a write of an entry is made, and whose it is.
fn stamp_of(entry: &Entry, write: &MinorWrite) -> Stamp
    ensures { result ≡ stamp_of entry.now write.now }
{
    Stamp {
        at: Moment {
            epoch: entry.epoch,
            minor: write.minor,
        },
        by: entry.attempt,
    }
}

/// Adds the versions of an entry's writes. Its attempt has no entry yet: they count for nothing, and the call is
/// quiet.
///
/// # Errors
///
/// `Stopped` comes only where a count of the region rose in this call.
pub fn add_versions<R: Region>(
    opened: Opened<R>,
    entry: &Entry,
    writes: &[MinorWrite],
) -> (Opened<R>, Result<(), Stopped>)
    requires running { opened.blocks.undo.stopped ≡ false }
    requires writes { AllMayBeStaged entry.now writes.now }
    requires here { IsTrue R.tells → (x : Stored) × AllMayCome R.extent R.image opened entry.now writes.now x }
    requires room { sum_at_most writes.now ≤ free_count opened.blocks }
    ensures come { OnOk result.1 (IsTrue R.tells → (x : Stored) → AllMayCome R.extent R.image opened entry.now writes.now x → AllHaveCome R.extent R.image result.0 entry.now writes.now x) }
    ensures quiet { IsQuietCall result.1 (kept_of R.tells R.extent R.image opened) (kept_of R.tells R.extent R.image result.0)
        (may_of R.tells R.extent R.may_leave opened) (may_of R.tells R.extent R.may_leave result.0) }
    ensures free { free_count opened.blocks ≤ free_count result.0.blocks + sum_at_most writes.now }
    ensures left { LeavesBut R.tells R.extent R.may_leave (sum_at_most writes.now) opened result.0 }
    ensures size { R.extent result.0.blocks.undo.region ≡ R.extent opened.blocks.undo.region }
    ensures lease { result.0.table.header.lease ≡ opened.table.header.lease }
    ensures stops { Stops opened.blocks.undo.stopped result.0.blocks.undo.stopped (R.count opened.blocks.undo.region) (R.count result.0.blocks.undo.region)
        (R.burns opened.blocks.undo.region) (R.burns result.0.blocks.undo.region) result.1 }
{
    let Some((write, rest)) = writes.split_first() else {
        return (opened, Ok(()));
    };
    let stamp = stamp_of(entry, write);
    match add_version(opened, stamp, &write.write) {
        (opened, Ok(())) => add_versions(opened, entry, rest),
        (opened, Err(Stopped)) => (opened, Err(Stopped)),
    }
}
