// What reads are answered.
ghost use Rattle.std.specs.Prelude.{◌≡◌, IfOk};

use crate::items::{Items, Memory, TryCopy, Vec8};
use crate::key::Key;

/// A run of an array: the bytes of its records, or a hole of so many records.
#[derive(Drop)]
pub enum Piece {
    Bytes(Vec8),
    Hole(u32),
}

impl TryCopy for Piece {
    fn copy(&self) -> Result<Piece, Memory> {
        match self {
            Piece::Bytes(bytes) => Ok(Piece::Bytes(bytes.copy()?)),
            Piece::Hole(len) => Ok(Piece::Hole(*len)),
        }
    }
}

/// Neighbouring runs of an array.
pub type Pieces = Items<Piece>;

/// Keys, in byte order.
pub type Keys = Items<Key>;

/// What a read is answered: the bytes of a single value or that there are none, the pieces of an
/// array, the names that have a cell, or whether there is a cell.
#[derive(Drop)]
pub enum Answer {
    Bytes(Vec8),
    Parts(Pieces),
    Names(Keys),
    Yes,
    No,
    Absent,
}

impl Answer {
    /// The same answer again.
    pub fn copy(&self) -> Result<Answer, Memory>
        ensures { IfOk result (λ answer. answer ≡ self.now) }
    {
        match self {
            Answer::Bytes(bytes) => Ok(Answer::Bytes(bytes.copy()?)),
            Answer::Parts(pieces) => Ok(Answer::Parts(pieces.copy()?)),
            Answer::Names(keys) => Ok(Answer::Names(keys.copy()?)),
            Answer::Yes => Ok(Answer::Yes),
            Answer::No => Ok(Answer::No),
            Answer::Absent => Ok(Answer::Absent),
        }
    }
}
