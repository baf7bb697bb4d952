// What an open pool remembers is read of it, and it is made tidy.
ghost use Rattle.std.specs.Prelude.{◌≡◌, false, IfErr, IfOk, IsTrue};
ghost use Rattle.vos_pool_held.specs.vos_pool_base.Pool.{kept_of};
ghost use Rattle.vos_pool_opening.specs.Opening.{IsLack};
ghost use Rattle.vos_pool_opening.specs.Tidied.{IsFoundIn, StandsThere};
ghost use Rattle.vos_pool_opening.specs.Ways.{IsWay};
ghost use Rattle.vos_pool_steps.specs.Quiet.{IsQuietStep};

use crate::beginning::Beginning;
use crate::refusal::{cause_of_pieces, cause_of_tidy};
use base_outside::region::Region;
use daos_model::durable::Version;
use std::alloc::Global;
use vos_check_entries::entry::EntryRow;
use vos_counting::counted::counted;
use vos_pool_base::opened::Opened;
use vos_pool_make::cause::OpenCause;
use vos_pool_raise::raising::raise_layout;
use vos_pool_read::reading::read_pool;
use vos_pool_read::resting::rests;
use vos_pool_tidy::tidying::tidy;

/// What was found in an open pool: its versions that count, or why none are told.
type Read = Result<Vec<Version>, OpenCause>;

// The versions of a pool of the newer layout that count, once it is tidy.
fn read_tidied<R: Region>(alloc: Global, opened: Opened<R>, rows: &[EntryRow]) -> (Opened<R>, Read)
    requires running { opened.blocks.undo.stopped ≡ false }
    requires layout { opened.table.header.layout ≡ 2 }
    requires here { IsTrue R.tells → StandsThere R.extent R.image opened rows.now }
    ensures quiet { IsQuietStep R.tells R.extent R.count R.burns R.image R.may_leave opened result.0 }
    ensures found { IfOk result.1 (λ versions. IsFoundIn R.tells R.extent R.image result.0 rows.now versions.items) }
    ensures lack { IfErr result.1 (λ cause. IsLack result.0.blocks.undo.stopped cause) }
{
    rests(&opened);
    let (opened, read) = read_pool(alloc, opened);
    let versions = match read {
        Ok(versions) => versions,
        Err(no) => return (opened, Err(cause_of_pieces(no))),
    };
    let Ok(counted) = counted(alloc, rows, &versions) else {
        return (opened, Err(OpenCause::Memory));
    };
    let (opened, tidied) = tidy(alloc, opened, rows, &versions);
    match tidied {
        Ok(()) => (opened, Ok(counted)),
        Err(no) => (opened, Err(cause_of_tidy(no))),
    }
}

/// Raises a pool of the older layout, and makes it tidy. Gives the versions that count.
///
/// # Errors
///
/// `Stopped` comes only where a count of the region rose in this call; `Memory` for want of memory.
pub(crate) fn tidied<R: Region>(
    alloc: Global,
    opened: Opened<R>,
    rows: &[EntryRow],
    beginning: Beginning,
) -> (Opened<R>, Read)
    requires running { opened.blocks.undo.stopped ≡ false }
    requires here { IsTrue R.tells → StandsThere R.extent R.image opened rows.now }
    ensures way { IsWay beginning R.tells R.extent R.count R.burns R.image R.may_leave opened result.0 }
    ensures kept { result.0.blocks.undo.stopped ≡ false → kept_of R.tells R.extent R.image result.0 ≡ kept_of R.tells R.extent R.image opened }
    ensures found { IfOk result.1 (λ versions. IsFoundIn R.tells R.extent R.image result.0 rows.now versions.items) }
    ensures lack { IfErr result.1 (λ cause. IsLack result.0.blocks.undo.stopped cause) }
{
    rests(&opened);
    let mut opened = opened;
    if raise_layout(&mut opened).is_err() {
        return (opened, Err(OpenCause::Stopped));
    }
    rests(&opened);
    read_tidied(alloc, opened, rows)
}
