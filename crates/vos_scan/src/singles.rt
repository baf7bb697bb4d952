// The newest version that says what a single value holds.
ghost use Rattle.std.specs.Prelude.{◌≡◌, find, map, reverse};
ghost use Rattle.std.specs.Option.{option_copied};
ghost use Rattle.daos_model.specs.Cells.{single_cell};
ghost use Rattle.daos_model.specs.Prunes.{touches};
ghost use Rattle.vos_scan.specs.Chains.{AreChained, version_place};
ghost use Rattle.vos_scan.specs.Indexed.{IsIndexOf};
ghost use Rattle.vos_scan.specs.Newest.{says_at};

use crate::chains::Chains;
use crate::index::ReadIndex;
use crate::paths::{leads_to, same};
use base_types::epoch::Epoch;
use base_types::operation::Write;
use base_types::path::Path;
use daos_model::durable::Version;
use daos_model::prunes::is_seen;

// Whether a write says what the single value at a path holds.
#[tactic(auto, unfolding(daos_model::specs::Prunes::touches))]
fn touches(write: &Write, path: &Path) -> bool
    ensures { result ≡ touches (single_cell path.now) write.now }
{
    match write {
        Write::Single(at, _) => same(at, path),
        Write::Extent(_, _, _) => false,
        Write::PunchObject(at) | Write::PunchDkey(at) | Write::PunchAkey(at) => leads_to(at, path),
    }
}

// Whether a version below an epoch does.
fn says(row: &Version, path: &Path, below: Epoch) -> bool
    ensures { result ≡ says_at (single_cell path.now) below.0 row.now }
{
    is_seen(row, u128::from(below.0)) && touches(&row.write, path)
}

/// The last version that does.
pub fn newest<'a>(rows: &'a [Version], path: &Path, below: Epoch) -> Option<&'a Version>
    ensures { option_copied result ≡ find (says_at (single_cell path.now) below.0) (reverse rows.now) }
{
    rows.iter().rev().find(|row| says(row, path, below))
}

// The last of rows in chains that does.
fn newest_chained<'a>(
    rows: &'a [Version],
    chains: &Chains,
    path: &Path,
    below: Epoch,
) -> Option<&'a Version>
    requires { AreChained (map version_place rows.now) chains.now.lasts.items chains.now.links.items }
    ensures { option_copied result ≡ find (says_at (single_cell path.now) below.0) (reverse rows.now) }
{
    let mut walk = chains.walk(path);
    let mut left = walk.left();
    while left > 0 {
        let row = &rows[left - 1];
        if says(row, path, below) {
            return Some(row);
        }
        walk = chains.back(walk);
        left = walk.left();
    }
    None
}

/// The last version that does, by an index of the rows.
pub fn newest_indexed<'a>(
    rows: &'a [Version],
    index: &ReadIndex,
    path: &Path,
    below: Epoch,
) -> Option<&'a Version>
    requires { IsIndexOf index.now rows.now }
    ensures { option_copied result ≡ find (says_at (single_cell path.now) below.0) (reverse rows.now) }
{
    let (old, late) = rows.split_at(index.covered);
    if let Some(row) = newest(late, path, below) {
        return Some(row);
    }
    newest_chained(old, &index.chains, path, below)
}
