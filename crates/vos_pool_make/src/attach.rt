// A region whose content was checked becomes an open pool.
ghost use Rattle.std.specs.Prelude.{◌≡◌, false, IfErr, IfOk, IsTrue};
ghost use Rattle.vos_pool_make.specs.Attached.{CanBeHeld, IsAttached, IsFoundOf, IsRegionBack};

use crate::tables::tables_of;
use base_outside::region::Region;
use base_types::epoch::TargetId;
use pmem_alloc::blocks::Blocks;
use vos_pool_base::opened::Opened;
use vos_pool_open::below::check_content::content::ContentFound;
use vos_pool_open::below::check_content::laws::what_is_found_stands;
use vos_pool_open::below::check_entries::entry::EntryRow;
use vos_pool_open::kept::Kept;

/// An open pool, and the entries that were found in it, each with how many nodes it lists; and whether its region
/// was blank, so that it was formatted.
#[derive(Drop)]
pub struct Attached<R: Region> {
    pub opened: Opened<R>,
    pub entries: Vec<EntryRow>,
    pub blank: bool,
}

/// The region that was handed in. Its map of blocks couldn't be read.
#[derive(Drop)]
pub struct AttachNo<R> {
    pub region: R,
}

/// Reads the map of blocks of a region whose content was checked for a target, and remembers its fixed places, and
/// whether the region was blank. It writes nothing.
///
/// # Errors
///
/// It comes only where a count of the region rose in this call.
pub fn attach<R: Region>(
    kept: Kept<R>,
    target: TargetId,
    blank: bool,
) -> Result<Attached<R>, AttachNo<R>>
    requires running { kept.undo.stopped ≡ false }
    requires found { IsTrue R.tells → IsFoundOf R.extent R.image target kept.undo kept.found }
    requires held { CanBeHeld R.extent target kept.undo kept.found }
    ensures attached { IfOk result (λ a. IsAttached R.tells R.extent R.count R.burns R.image R.may_leave target kept.undo kept.found a.opened) }
    ensures entries { IfOk result (λ a. a.entries.items ≡ kept.found.entries.items) }
    ensures told { IfOk result (λ a. a.blank ≡ blank) }
    ensures given_up { IfErr result (λ e. IsRegionBack R.tells R.extent R.count R.burns R.may_leave kept.undo e.region) }
{
    what_is_found_stands();
    let Kept { undo, found } = kept;
    let _size = undo.size();
    let ContentFound { fixed, entries } = found;
    let tables = tables_of(fixed, target);
    match Blocks::open(undo) {
        Ok(blocks) => {
            let opened = Opened { blocks, tables };
            Ok(Attached {
                opened,
                entries,
                blank,
            })
        }
        Err(no) => Err(AttachNo {
            region: no.undo.into_region(),
        }),
    }
}
