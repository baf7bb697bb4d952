// Pieces of an array, index by index.
ghost use Rattle.std.specs.Prelude.{◌≡◌, ◌+◌, ◌^◌, ◌<◌, ◌++◌, IfOk, OnOk};
ghost use Rattle.std.specs.Option.{option_copied};
ghost use Rattle.daos_model.specs.Pieces.{after_last, hole_length, index_after, last_hole, lone_piece};

use base_types::answer::Piece;
use base_types::items::{Items, Memory, Vec8, bytes_of};
use std::alloc::Global;

// The piece of one index.
fn lone_piece(alloc: Global, held: Option<&[u8]>) -> Result<Piece, Memory>
    ensures { IfOk result (λ piece. piece ≡ lone_piece (option_copied held.entry)) }
{
    match held {
        Some(record) => Ok(Piece::Bytes(bytes_of(alloc, record)?)),
        None => Ok(Piece::Hole(1)),
    }
}

// Bytes, and a record after them.
fn joined(bytes: Vec8, more: &[u8]) -> Result<Vec8, Memory>
    ensures { IfOk result (λ all. all ≡ bytes ++ more.now) }
{
    let mut bytes = bytes.into_vec();
    bytes.extend_from_slice(more)?;
    Ok(Items::from_vec(bytes))
}

// Adds the last piece again, and an index after it.
fn add_after(
    alloc: Global,
    pieces: &mut Vec<Piece>,
    last: Piece,
    held: Option<&[u8]>,
) -> Result<(), Memory>
    requires { hole_length last + 1 < 2 ^ 32 }
    ensures { OnOk result (pieces.new.items ≡ pieces.old.items ++ after_last last (option_copied held.entry)) }
{
    match (last, held) {
        (Piece::Bytes(bytes), Some(more)) => pieces.push(Piece::Bytes(joined(bytes, more)?))?,
        (Piece::Hole(len), None) => pieces.push(Piece::Hole(len + 1))?,
        (last, held) => {
            pieces.push(last)?;
            pieces.push(lone_piece(alloc, held)?)?;
        }
    }
    Ok(())
}

/// Adds an index after all pieces: the record that it holds, or a hole.
pub fn add_index(alloc: Global, pieces: &mut Vec<Piece>, held: Option<&[u8]>) -> Result<(), Memory>
    requires { last_hole pieces.old.items + 1 < 2 ^ 32 }
    ensures { OnOk result (pieces.new.items ≡ index_after pieces.old.items (option_copied held.entry)) }
{
    match pieces.pop() {
        Some(last) => add_after(alloc, pieces, last, held),
        None => {
            pieces.push(lone_piece(alloc, held)?)?;
            Ok(())
        }
    }
}
