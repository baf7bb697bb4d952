// A map from cells to bytes.
ghost use Rattle.std.specs.Prelude.{◌≡◌, [], ◌∷◌, ◌++◌, filter, find, reverse, IfOk, OnOk, OnErr};
ghost use Rattle.std.specs.List.{list_any};
ghost use Rattle.std.specs.Option.{option_copied, option_map};
ghost use Rattle.daos_model.specs.Answers.{has_cell_below, is_under};
ghost use Rattle.daos_model.specs.Cells.{held_bytes, is_of, value_at};
ghost use Rattle.daos_model.specs.Effect.{is_outside, without};

use crate::cell::{Cell, CellValue};
use base_types::items::{Memory, Vec8};
use base_types::path::Path;
use std::alloc::Global;
use std::marker::Model;

/// A map from cells to bytes, seen as a list of cells with their bytes, of which the first of a
/// cell counts.
#[derive(Drop)]
pub struct Map {
    newest_last: Vec<CellValue>,
}

impl Model for Map {
    ghost use Rattle.std.specs.Prelude.{List, reverse};
    ghost use Rattle.daos_model.specs.declared.cell.CellValue.{CellValue};

    ghost Value = { List CellValue };

    ghost view = { λ m. reverse m.newest_last.items };
}

impl Map {
    /// The map of no cell, which takes no memory.
    pub fn new(alloc: Global) -> Self
        ensures { result ≡ [] }
    {
        Map {
            newest_last: Vec::new(alloc),
        }
    }

    /// The same map again.
    pub fn copy(&self, alloc: Global) -> Result<Map, Memory>
        ensures { IfOk result (λ map. map ≡ self.now) }
    {
        Ok(Map {
            newest_last: copy_values(alloc, self.newest_last.as_slice())?,
        })
    }

    /// The cells with their bytes, of which the last of a cell counts.
    pub fn newest_last(&self) -> &[CellValue]
        ensures { reverse result.now ≡ self.now }
    {
        self.newest_last.as_slice()
    }

    // The allocator that gives the map its memory.
    pub(crate) fn allocator(&self) -> Global {
        *self.newest_last.allocator()
    }

    /// What a cell holds, if anything.
    pub fn get(&self, cell: &Cell) -> Option<&Vec8>
        ensures { option_copied result ≡ value_at self.now cell.now }
    {
        held_bytes(newest(self.newest_last(), cell))
    }

    /// Whether there is a cell under a path.
    pub fn has_cell_below(&self, path: &Path) -> bool
        ensures { result ≡ has_cell_below path.now self.now }
    {
        any_under(self.newest_last(), path)
    }

    /// Sets a cell. Where memory is wanting the map stays as it was.
    pub fn put(&mut self, value: CellValue) -> Result<(), Memory>
        ensures ok { OnOk result (self.new ≡ value ∷ self.old) }
        ensures err { OnErr result (self.new ≡ self.old) }
    {
        self.newest_last.push(value)?;
        Ok(())
    }

    /// Sets cells, of which the last of a cell counts. Where memory is wanting the map stays as it
    /// was.
    pub fn put_all(&mut self, mut newest_last: Vec<CellValue>) -> Result<(), Memory>
        ensures ok { OnOk result (self.new ≡ reverse newest_last.items ++ self.old) }
        ensures err { OnErr result (self.new ≡ self.old) }
    {
        self.newest_last.append(&mut newest_last)
    }

    /// Removes every cell under a path.
    pub fn punch(&mut self, path: &Path)
        ensures { self.new ≡ without path.now self.old }
    {
        keep_outside(&mut self.newest_last, path);
    }
}

// The same values again.
fn copy_values(alloc: Global, values: &[CellValue]) -> Result<Vec<CellValue>, Memory>
    ensures { IfOk result (λ copied. copied.items ≡ values.now) }
{
    let mut copied = Vec::new(alloc);
    for value in values {
        copied.push(value.copy()?)?;
    }
    Ok(copied)
}

// The last value of a cell.
fn newest<'a>(newest_last: &'a [CellValue], cell: &Cell) -> Option<&'a CellValue>
    ensures { option_copied result ≡ find (is_of cell.now) (reverse newest_last.now) }
{
    newest_last.iter().rev().find(|value| value.cell.same(cell))
}

// The bytes of a value, if there is one.
fn held_bytes(value: Option<&CellValue>) -> Option<&Vec8>
    ensures { option_copied result ≡ option_map held_bytes (option_copied value.entry) }
{
    value.map(|value| &value.bytes)
}

// Whether a cell stands under a path.
fn any_under(values: &[CellValue], path: &Path) -> bool
    ensures { result ≡ list_any (is_under path.now) (reverse values.now) }
{
    values
        .iter()
        .rev()
        .any(|value| path.leads_to(&value.cell.path))
}

// Keeps the cells that aren't under a path, in their order.
fn keep_outside(values: &mut Vec<CellValue>, path: &Path)
    ensures { values.new.items ≡ filter (is_outside path.now) values.old.items }
{
    let mut kept = 0;
    for i in 0..values.len() {
        if !path.leads_to(&values[i].cell.path) {
            values.swap(kept, i);
            kept += 1;
        }
    }
    values.truncate(kept);
}
