// What a read is answered on a map.
ghost use Rattle.std.specs.Prelude.{◌≡◌, IfOk};
ghost use Rattle.std.specs.Option.{option_copied};
ghost use Rattle.daos_model.specs.Answers.{answer, value_answer, yes_or_no};

use crate::cell::Cell;
use crate::map::Map;
use crate::names::{akeys_below, dkeys_below};
use crate::pieces::pieces;
use base_types::answer::Answer;
use base_types::items::{Items, Memory, Vec8};
use base_types::operation::Read;
use std::alloc::Global;

// The answer to whether there is something.
fn yes_or_no(there: bool) -> Answer
    ensures { result ≡ yes_or_no there }
{
    if there { Answer::Yes } else { Answer::No }
}

// The answer that bytes, or none, make.
fn value_answer(bytes: Option<&Vec8>) -> Result<Answer, Memory>
    ensures { IfOk result (λ a. a ≡ value_answer (option_copied bytes.entry)) }
{
    match bytes {
        Some(bytes) => Ok(Answer::Bytes(bytes.copy()?)),
        None => Ok(Answer::Absent),
    }
}

/// What a read is answered on a map: the bytes of a single value, the pieces of an array, the names
/// that have a cell, or whether there is a cell.
pub fn answer_of(alloc: Global, map: &Map, read: &Read) -> Result<Answer, Memory>
    ensures { IfOk result (λ a. a ≡ answer read.now map.now) }
{
    match read {
        Read::Single(path) => value_answer(map.get(&Cell::single(path.copy()?))),
        Read::Extent(path, low, len) => {
            let pieces = pieces(alloc, map.newest_last(), path, *low, *len)?;
            Ok(Answer::Parts(Items::from_vec(pieces)))
        }
        Read::Dkeys(path) => {
            let names = dkeys_below(alloc, map.newest_last(), path)?;
            Ok(Answer::Names(Items::from_vec(names)))
        }
        Read::Akeys(path) => {
            let names = akeys_below(alloc, map.newest_last(), path)?;
            Ok(Answer::Names(Items::from_vec(names)))
        }
        Read::Exists(path) => Ok(yes_or_no(map.has_cell_below(path))),
    }
}
