// What a write makes of a map.
ghost use Rattle.std.specs.Prelude.{◌≡◌, ◌+◌, ◌/◌, ◌^◌, ◌<◌, length, reverse, OnOk, OnErr, IfOk};
ghost use Rattle.base_types.specs.Paths.{record_size};
ghost use Rattle.daos_model.specs.Effect.{EndsInArray, effect, extent_cells, index_value};

use crate::cell::{Cell, CellValue};
use crate::map::Map;
use crate::records::{count_records, nth_record, record_size};
use base_types::items::{Memory, bytes_of};
use base_types::operation::Write;
use base_types::path::Path;
use std::alloc::Global;

// An index of an array with its record.
fn index_value(alloc: Global, path: &Path, index: u32, bytes: &[u8]) -> Result<CellValue, Memory>
    ensures { IfOk result (λ value. value ≡ index_value path.now index bytes.now) }
{
    Ok(CellValue {
        cell: Cell::index(path.copy()?, index),
        bytes: bytes_of(alloc, bytes)?,
    })
}

// One cell for each record, from an index on, the last index first.
fn extent_cells(
    alloc: Global,
    path: &Path,
    low: u32,
    bytes: &[u8],
) -> Result<Vec<CellValue>, Memory>
    requires { low + length bytes.now / record_size path.now < 2 ^ 32 }
    ensures { IfOk result (λ cells. reverse cells.items ≡ extent_cells path.now low bytes.now) }
{
    let size = usize::from(record_size(path));
    let mut cells = Vec::new(alloc);
    let mut i = count_records(path, bytes.len());
    while i > 0 {
        i -= 1;
        let record = nth_record(bytes, size, i);
        cells.push(index_value(alloc, path, low + i as u32, record)?)?;
    }
    Ok(cells)
}

/// Does a write: a value or an extent sets its cells, a punch removes every cell under its path.
/// Where memory is wanting the map stays as it was.
pub fn apply_write(map: &mut Map, write: &Write) -> Result<(), Memory>
    requires { EndsInArray write.now }
    ensures ok { OnOk result (map.new ≡ effect write.now map.old) }
    ensures err { OnErr result (map.new ≡ map.old) }
{
    match write {
        Write::Single(path, bytes) => map.put(CellValue {
            cell: Cell::single(path.copy()?),
            bytes: bytes.copy()?,
        }),
        Write::Extent(path, low, bytes) => {
            let cells = extent_cells(map.allocator(), path, *low, bytes.as_slice())?;
            map.put_all(cells)
        }
        Write::PunchObject(path) | Write::PunchDkey(path) | Write::PunchAkey(path) => {
            map.punch(path);
            Ok(())
        }
    }
}
