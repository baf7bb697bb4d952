// The pieces of an array: its records and its holes.
ghost use Rattle.std.specs.Prelude.{◌≡◌, ◌+◌, ◌^◌, ◌<◌, ◌++◌, Some, length, reverse, IfOk, OnOk};
ghost use Rattle.std.specs.Option.{option_copied};
ghost use Rattle.daos_model.specs.Answers.{pieces, record_of};
ghost use Rattle.daos_model.specs.Pieces.{after_last, hole_length, index_after, index_in, last_hole, lent, lone_piece, pieces_of, window, with_index};

use crate::cell::CellValue;
use crate::records::record_size;
use base_types::answer::Piece;
use base_types::items::{Items, Memory, Vec8};
use base_types::path::Path;
use std::alloc::Global;

// The index of an akey's array that a value is of, if it is of one.
fn index_in(path: &Path, value: &CellValue) -> Option<u32>
    ensures { result ≡ index_in path.now value.now }
{
    if value.cell.path.same(path) {
        value.cell.index
    } else {
        None
    }
}

// Sets what an index, if there is one, holds, among bytes by index from one on.
fn set_index<'a>(held: &mut Vec<Option<&'a Vec8>>, low: u32, index: Option<u32>, bytes: &'a Vec8)
    ensures { lent held.new.items ≡ with_index index low bytes.now (lent held.old.items) }
{
    let Some(index) = index else {
        return;
    };
    if low <= index {
        let place = (index - low) as usize;
        if place < held.len() {
            held[place] = Some(bytes);
        }
    }
}

// What so many indexes of an akey's array hold, from one on.
fn window<'a>(
    alloc: Global,
    newest_last: &'a [CellValue],
    path: &Path,
    low: u32,
    len: u32,
) -> Result<Vec<Option<&'a Vec8>>, Memory>
    ensures { IfOk result (λ held. lent held.items ≡ window path.now low len (reverse newest_last.now)) }
{
    let mut held = vec![in alloc; None; len as usize]?;
    for value in newest_last {
        set_index(&mut held, low, index_in(path, value), &value.bytes);
    }
    Ok(held)
}

// The record that bytes are, if they have its size.
fn record_of(size: u8, bytes: Option<&Vec8>) -> Option<&Vec8>
    ensures { option_copied result ≡ record_of size (option_copied bytes.entry) }
{
    bytes.filter(|bytes| bytes.len() == usize::from(size))
}

// The piece of one index.
fn lone_piece(held: Option<&Vec8>) -> Result<Piece, Memory>
    ensures { IfOk result (λ piece. piece ≡ lone_piece (option_copied held.entry)) }
{
    match held {
        Some(bytes) => Ok(Piece::Bytes(bytes.copy()?)),
        None => Ok(Piece::Hole(1)),
    }
}

// Bytes, and a record after them.
fn joined(bytes: Vec8, more: &Vec8) -> Result<Vec8, Memory>
    ensures { IfOk result (λ all. all ≡ bytes ++ more.now) }
{
    let mut bytes = bytes.into_vec();
    bytes.extend_from_slice(more.as_slice())?;
    Ok(Items::from_vec(bytes))
}

// Adds the last piece again, and an index after it.
fn add_after(pieces: &mut Vec<Piece>, last: Piece, held: Option<&Vec8>) -> Result<(), Memory>
    requires { hole_length last + 1 < 2 ^ 32 }
    ensures { OnOk result (pieces.new.items ≡ pieces.old.items ++ after_last last (option_copied held.entry)) }
{
    match (last, held) {
        (Piece::Bytes(bytes), Some(more)) => pieces.push(Piece::Bytes(joined(bytes, more)?))?,
        (Piece::Hole(len), None) => pieces.push(Piece::Hole(len + 1))?,
        (last, held) => {
            pieces.push(last)?;
            pieces.push(lone_piece(held)?)?;
        }
    }
    Ok(())
}

// Adds an index to pieces.
fn add_index(pieces: &mut Vec<Piece>, held: Option<&Vec8>) -> Result<(), Memory>
    requires { last_hole pieces.old.items + 1 < 2 ^ 32 }
    ensures { OnOk result (pieces.new.items ≡ index_after pieces.old.items (option_copied held.entry)) }
{
    match pieces.pop() {
        Some(last) => add_after(pieces, last, held),
        None => {
            pieces.push(lone_piece(held)?)?;
            Ok(())
        }
    }
}

// The pieces that bytes by index make, of records of a size.
fn pieces_of(alloc: Global, size: u8, held: &[Option<&Vec8>]) -> Result<Vec<Piece>, Memory>
    requires { length held.now < 2 ^ 32 }
    ensures { IfOk result (λ pieces. pieces.items ≡ pieces_of size (lent held.now)) }
{
    let mut pieces = Vec::new(alloc);
    for bytes in held {
        add_index(&mut pieces, record_of(size, *bytes))?;
    }
    Ok(pieces)
}

/// The pieces of so many indexes of an akey's array, from one on.
pub(crate) fn pieces(
    alloc: Global,
    newest_last: &[CellValue],
    path: &Path,
    low: u32,
    len: u32,
) -> Result<Vec<Piece>, Memory>
    ensures { IfOk result (λ made. made.items ≡ pieces path.now low len (reverse newest_last.now)) }
{
    let held = window(alloc, newest_last, path, low, len)?;
    pieces_of(alloc, record_size(path), held.as_slice())
}
