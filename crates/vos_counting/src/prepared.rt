// The entries that are prepared, found by attempt and epoch.
ghost use Rattle.std.specs.Prelude.{◌≡◌, IfOk};
ghost use Rattle.daos_model.specs.declared.durable.Version.{Version as VersionOf};
ghost use Rattle.vos_counting.specs.Counting.{HasPrepared, entries_of, entry_name};
ghost use Rattle.vos_counting.specs.Prepared.{counts_in};
ghost use Rattle.vos_image.specs.Kept.{counts};

use base_types::epoch::Epoch;
use base_types::id::AttemptId;
use base_types::items::Memory;
use daos_model::durable::Version;
use std::alloc::Global;
use std::collections::HashSet;
use vos_check_entries::entry::EntryRow;

// The numbers that name an entry: its client and its command, and its attempt and its epoch.
type EntryName = ((u16, u32), (u8, u64));

/// Prepared entries. They tell which versions count: those that are done, and those of a prepared entry's attempt
/// and epoch.
#[derive(Drop)]
pub struct Prepared {
    names: HashSet<EntryName>,
}

// The numbers that name what an attempt has at an epoch.
fn entry_name(attempt: AttemptId, epoch: Epoch) -> EntryName
    ensures { result ≡ entry_name attempt epoch }
{
    (
        (attempt.client, attempt.command),
        (attempt.attempt, epoch.0),
    )
}

// The names of the prepared ones among some entries.
fn names_of(alloc: Global, rows: &[EntryRow]) -> Result<HashSet<EntryName>, Memory>
    ensures { IfOk result (λ names. HasPrepared names (entries_of rows.now)) }
{
    let mut names: HashSet<EntryName> = HashSet::new(alloc);
    for row in rows {
        if row.entry.committed {
            continue;
        }
        names.insert(entry_name(row.entry.attempt, row.entry.epoch))?;
    }
    Ok(names)
}

impl Prepared {
    /// The prepared ones among some entries.
    pub fn new(alloc: Global, rows: &[EntryRow]) -> Result<Prepared, Memory>
        ensures { IfOk result (λ prepared. (v : VersionOf) → counts_in prepared v ≡ counts (entries_of rows.now) v) }
    {
        let names = names_of(alloc, rows)?;
        Ok(Prepared { names })
    }

    /// Whether a version counts.
    pub fn counts(&self, version: &Version) -> bool
        ensures { result ≡ counts_in self.now version.now }
    {
        version.done || self.names.contains(&entry_name(version.by, version.epoch))
    }
}
