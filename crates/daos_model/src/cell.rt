// Cells, the smallest things that hold bytes.
ghost use Rattle.std.specs.Prelude.{◌≡◌, IfOk};
ghost use Rattle.daos_model.specs.Cells.{index_cell, same_cell, single_cell};

use base_types::items::{Memory, Vec8};
use base_types::path::Path;

/// A cell: the single value of an akey, or one index of its array. Its path ends at the akey.
#[derive(Drop)]
pub struct Cell {
    pub path: Path,
    pub index: Option<u32>,
}

/// A cell and what it holds: the bytes of a single value, or the record of an index.
#[derive(Drop)]
pub struct CellValue {
    pub cell: Cell,
    pub bytes: Vec8,
}

impl CellValue {
    /// The same cell and bytes again.
    pub fn copy(&self) -> Result<CellValue, Memory>
        ensures { IfOk result (λ value. value ≡ self.now) }
    {
        Ok(CellValue {
            cell: self.cell.copy()?,
            bytes: self.bytes.copy()?,
        })
    }
}

impl Cell {
    /// The same cell again.
    pub fn copy(&self) -> Result<Cell, Memory>
        ensures { IfOk result (λ cell. cell ≡ self.now) }
    {
        Ok(Cell {
            path: self.path.copy()?,
            index: self.index,
        })
    }

    /// The cell of an akey's single value.
    pub fn single(path: Path) -> Cell
        ensures { result ≡ single_cell path }
    {
        Cell { path, index: None }
    }

    /// The cell of an index of an akey's array.
    pub fn index(path: Path, index: u32) -> Cell
        ensures { result ≡ index_cell path index }
    {
        Cell {
            path,
            index: Some(index),
        }
    }

    /// Whether two cells are the same.
    #[tactic(auto, unfolding(crate::specs::Cells::same_cell))]
    pub fn same(&self, other: &Cell) -> bool
        ensures { result ≡ same_cell self.now other.now }
    {
        self.path.same(&other.path) && self.index == other.index
    }
}
