// The versions that count.
ghost use Rattle.std.specs.Prelude.{◌≡◌, filter, IfOk};
ghost use Rattle.vos_counting.specs.Counting.{FewWait, entries_of};
ghost use Rattle.vos_counting.specs.Prepared.{counts_in};
ghost use Rattle.vos_image.specs.Kept.{counts};

use crate::prepared::Prepared;
use crate::waiting::check_waiting;
use base_types::items::{Memory, TryCopy};
use daos_model::durable::Version;
use std::alloc::Global;
use vos_check_entries::entry::EntryRow;

// Those of some versions that count.
fn copy_counted(
    alloc: Global,
    prepared: &Prepared,
    versions: &[Version],
) -> Result<Vec<Version>, Memory>
    ensures { IfOk result (λ kept. kept.items ≡ filter (counts_in prepared.now) versions.now) }
{
    let mut kept = Vec::new(alloc);
    for version in versions {
        if prepared.counts(version) {
            kept.push(version.copy()?)?;
        }
    }
    Ok(kept)
}

/// Those of some versions that count where these are the entries.
///
/// # Errors
///
/// More than 64 unsettled versions of one attempt are told as want of memory.
pub fn counted(
    alloc: Global,
    rows: &[EntryRow],
    versions: &[Version],
) -> Result<Vec<Version>, Memory>
    ensures counted { IfOk result (λ kept. kept.items ≡ filter (counts (entries_of rows.now)) versions.now) }
    ensures few { IfOk result (λ kept. FewWait kept.items) }
{
    let prepared = Prepared::new(alloc, rows)?;
    check_waiting(alloc, &prepared, versions)?;
    copy_counted(alloc, &prepared, versions)
}
