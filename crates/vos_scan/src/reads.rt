// What reads are answered on versions in a row.
ghost use Rattle.std.specs.Prelude.{◌≡◌, true, IfOk};
ghost use Rattle.std.specs.List.{list_all};
ghost use Rattle.std.specs.Option.{option_copied};
ghost use Rattle.base_types.specs.declared.operation.Read.TheVariants.{Dkeys};
ghost use Rattle.daos_model.specs.Answers.{answer, value_answer};
ghost use Rattle.daos_model.specs.Durables.{is_version_in_form};
ghost use Rattle.daos_model.specs.Versions.{map_below};
ghost use Rattle.vos_scan.specs.Indexed.{IsIndexOf};
ghost use Rattle.vos_scan.specs.Marks.{asks_names};
ghost use Rattle.vos_scan.specs.Newest.{single_of};

use crate::index::ReadIndex;
use crate::layers::pieces_below;
use crate::marks::marks_below;
use crate::names::{dkeys_by, dkeys_indexed};
use crate::singles::{newest, newest_indexed};
use base_types::answer::Answer;
use base_types::epoch::Epoch;
use base_types::items::{Items, Memory};
use base_types::operation::{Read, Write};
use base_types::path::Path;
use daos_model::answers::answer_of;
use daos_model::durable::Version;
use std::alloc::Global;

// The answer that the last version makes.
fn single_answer(newest: Option<&Version>) -> Result<Answer, Memory>
    ensures { IfOk result (λ a. a ≡ value_answer (single_of (option_copied newest.entry))) }
{
    let Some(newest) = newest else {
        return Ok(Answer::Absent);
    };
    match &newest.write {
        Write::Single(_, bytes) => Ok(Answer::Bytes(bytes.copy()?)),
        _ => Ok(Answer::Absent),
    }
}

// What a read of names, or of whether there is a cell, is answered: names go by one mark for each update.
fn answer_by_marks(
    alloc: Global,
    rows: &[Version],
    read: &Read,
    below: Epoch,
) -> Result<Answer, Memory>
    requires form { list_all is_version_in_form rows.now ≡ true }
    requires names { asks_names read.now ≡ true }
    ensures { IfOk result (λ a. a ≡ answer read.now (map_below rows.now below.0)) }
{
    let marks = marks_below(alloc, rows, read.path(), below)?;
    answer_of(alloc, &marks, read)
}

// What a read of dkeys is answered: where no punch is seen, they are those of the updates.
fn answer_dkeys(
    alloc: Global,
    rows: &[Version],
    read: &Read,
    path: &Path,
    below: Epoch,
) -> Result<Answer, Memory>
    requires form { list_all is_version_in_form rows.now ≡ true }
    requires dkeys { read.now ≡ Dkeys path.now }
    ensures { IfOk result (λ a. a ≡ answer read.now (map_below rows.now below.0)) }
{
    match dkeys_by(alloc, rows, path, below)? {
        Some(names) => Ok(Answer::Names(Items::from_vec(names))),
        None => answer_by_marks(alloc, rows, read, below),
    }
}

/// What a read is answered on the map below an epoch. No map is made of its cells: a single value
/// is that of the newest version that says it, an array's pieces are those of its extents, and names
/// go by one mark for each update, or, where no punch is seen, are put in order as they come.
pub fn answer_below(
    alloc: Global,
    rows: &[Version],
    read: &Read,
    below: Epoch,
) -> Result<Answer, Memory>
    requires { list_all is_version_in_form rows.now ≡ true }
    ensures { IfOk result (λ a. a ≡ answer read.now (map_below rows.now below.0)) }
{
    match read {
        Read::Single(path) => single_answer(newest(rows, path, below)),
        Read::Extent(path, low, len) => {
            let pieces = pieces_below(alloc, rows, None, path, *low, *len, below)?;
            Ok(Answer::Parts(Items::from_vec(pieces)))
        }
        Read::Dkeys(path) => answer_dkeys(alloc, rows, read, path, below),
        Read::Akeys(_) | Read::Exists(_) => answer_by_marks(alloc, rows, read, below),
    }
}

// What a read of dkeys is answered, by an index of the rows.
fn answer_dkeys_indexed(
    alloc: Global,
    rows: &[Version],
    index: &ReadIndex,
    read: &Read,
    path: &Path,
    below: Epoch,
) -> Result<Answer, Memory>
    requires form { list_all is_version_in_form rows.now ≡ true }
    requires index { IsIndexOf index.now rows.now }
    requires dkeys { read.now ≡ Dkeys path.now }
    ensures { IfOk result (λ a. a ≡ answer read.now (map_below rows.now below.0)) }
{
    if path.dkey.is_some() || path.akey.is_some() {
        return answer_dkeys(alloc, rows, read, path, below);
    }
    match dkeys_indexed(alloc, rows, index, path, below)? {
        Some(names) => Ok(Answer::Names(Items::from_vec(names))),
        None => answer_by_marks(alloc, rows, read, below),
    }
}

/// What a read is answered on the map below an epoch, by an index of the rows.
pub fn answer_indexed(
    alloc: Global,
    rows: &[Version],
    index: &ReadIndex,
    read: &Read,
    below: Epoch,
) -> Result<Answer, Memory>
    requires form { list_all is_version_in_form rows.now ≡ true }
    requires index { IsIndexOf index.now rows.now }
    ensures { IfOk result (λ a. a ≡ answer read.now (map_below rows.now below.0)) }
{
    match read {
        Read::Single(path) => single_answer(newest_indexed(rows, index, path, below)),
        Read::Extent(path, low, len) => {
            let pieces = pieces_below(alloc, rows, Some(index), path, *low, *len, below)?;
            Ok(Answer::Parts(Items::from_vec(pieces)))
        }
        Read::Dkeys(path) => answer_dkeys_indexed(alloc, rows, index, read, path, below),
        Read::Akeys(_) | Read::Exists(_) => answer_by_marks(alloc, rows, read, below),
    }
}
