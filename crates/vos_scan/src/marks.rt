// The updates below a path that a read still sees, each by one mark in place of all its cells.
ghost use Rattle.std.specs.Prelude.{◌≡◌, [], filter, IfOk, OnOk};
ghost use Rattle.daos_model.specs.Versions.{sees, writes_in};
ghost use Rattle.vos_scan.specs.Marks.{mark_at, marked, marked_under, marks_by};

use base_types::epoch::Epoch;
use base_types::items::{Items, Memory};
use base_types::operation::Write;
use base_types::path::Path;
use daos_model::cell::{Cell, CellValue};
use daos_model::durable::Version;
use daos_model::map::Map;
use daos_model::prunes::is_seen;
use std::alloc::Global;

// The mark of an update at a path.
fn mark_at(alloc: Global, path: &Path) -> Result<CellValue, Memory>
    ensures { IfOk result (λ mark. mark ≡ mark_at path.now) }
{
    Ok(CellValue {
        cell: Cell::single(path.copy()?),
        bytes: Items::new(alloc),
    })
}

// Marks an update, where it is under a path.
fn mark_under(alloc: Global, marks: &mut Map, path: &Path, at: &Path) -> Result<(), Memory>
    ensures { OnOk result (marks.new ≡ marked_under path.now at.now marks.old) }
{
    if path.leads_to(at) {
        marks.put(mark_at(alloc, at)?)?;
    }
    Ok(())
}

// Does what a write makes of the marks under a path.
fn mark(alloc: Global, marks: &mut Map, path: &Path, write: &Write) -> Result<(), Memory>
    ensures { OnOk result (marks.new ≡ marked path.now write.now marks.old) }
{
    match write {
        Write::Single(at, _) | Write::Extent(at, _, _) => mark_under(alloc, marks, path, at),
        Write::PunchObject(at) | Write::PunchDkey(at) | Write::PunchAkey(at) => {
            marks.punch(at);
            Ok(())
        }
    }
}

/// The marks under a path of the versions below an epoch.
pub fn marks_below(
    alloc: Global,
    rows: &[Version],
    path: &Path,
    below: Epoch,
) -> Result<Map, Memory>
    ensures { IfOk result (λ marks. marks ≡ marks_by path.now (writes_in (filter (sees below.0) rows.now)) []) }
{
    let mut marks = Map::new(alloc);
    for row in rows {
        if is_seen(row, u128::from(below.0)) {
            mark(alloc, &mut marks, path, &row.write)?;
        }
    }
    Ok(marks)
}
