// What an open pool keeps, put into memory.
ghost use Rattle.std.specs.Prelude.{◌≡◌, true, IfOk, map};
ghost use Rattle.std.specs.List.{list_all};
ghost use Rattle.daos_model.specs.Durables.{entry_key, is_version_in_form, version_key};
ghost use Rattle.daos_model.specs.Ordered.{in_order};
ghost use Rattle.vos_pool_held.specs.vos_contents.Contents.{contents_of};
ghost use Rattle.vos_pool_held.specs.vos_contents.Found.{found_durable};
ghost use Rattle.vos_pool_held.specs.vos_pool_base.vos_tables.Kept.{kept_with};
ghost use Rattle.vos_counting.specs.Counting.{entries_of};

use base_types::entry::Entry;
use base_types::items::Memory;
use daos_model::durable::Version;
use dtx_entries::loops::is_rising;
use std::alloc::{AllocError, Global};
use vos_check_entries::entry::EntryRow;
use vos_contents::contents::Contents;
use vos_contents::found::Found;
use vos_pool_base::below::tables::laws::tables_are_in_form;
use vos_pool_base::below::tables::table::Tables;

/// The entries of rows.
pub(crate) fn entries_of(alloc: Global, rows: &[EntryRow]) -> Result<Vec<Entry>, Memory>
    ensures { IfOk result (λ entries. entries.items ≡ entries_of rows.now) }
{
    let mut entries = Vec::new(alloc);
    for row in rows {
        entries.push(row.entry)?;
    }
    Ok(entries)
}

// What fixed places say, with versions and entries.
fn found_in(
    alloc: Global,
    tables: &Tables,
    versions: Vec<Version>,
    entries: Vec<Entry>,
) -> Result<Found, Memory>
    ensures { IfOk result (λ found. found_durable found ≡ kept_with tables.now (in_order version_key versions.items) (in_order entry_key entries.items)) }
{
    let conts = tables.cont_rows(alloc)?;
    let snaps = tables.snap_rows(alloc)?;
    let (lease, incarnation) = (tables.lease(), tables.incarnation());
    Ok(Found {
        versions,
        entries,
        conts,
        snaps,
        lease,
        incarnation,
    })
}

/// What fixed places say, with versions and entries, as contents in memory.
///
/// # Errors
///
/// For want of memory; also where the entries don't rise, which no region that tells its bytes shows.
pub(crate) fn contents_in(
    alloc: Global,
    tables: &Tables,
    versions: Vec<Version>,
    entries: Vec<Entry>,
) -> Result<Contents, Memory>
    requires form { list_all is_version_in_form versions.items ≡ true }
    ensures { IfOk result (λ c. contents_of c ≡ kept_with tables.now (in_order version_key versions.items) (in_order entry_key entries.items)) }
{
    if !is_rising(&entries) {
        return Err(AllocError);
    }
    tables_are_in_form(tables);
    let found = found_in(alloc, tables, versions, entries)?;
    Contents::of(alloc, found)
}
