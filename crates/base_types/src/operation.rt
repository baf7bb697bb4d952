// What a transaction reads, asks and writes.
ghost use Rattle.std.specs.Prelude.{◌≡◌, IfOk};
ghost use Rattle.base_types.specs.Operations.{act_path, read_path, write_path};

use crate::items::{Items, Memory, TryCopy, Vec8};
use crate::path::Path;

/// A change. A path ends at the level of its change: an akey for `Single`, `Extent` (the index of
/// its first record and its bytes) and `PunchAkey`, a dkey for `PunchDkey`, an object for
/// `PunchObject`. Values and extents have 1 to 1,024 bytes; those of an extent are whole records of
/// its object, and it ends at the index 2^32 - 1 at most.
#[derive(Drop)]
pub enum Write {
    Single(Path, Vec8),
    Extent(Path, u32, Vec8),
    PunchObject(Path),
    PunchDkey(Path),
    PunchAkey(Path),
}

impl Write {
    /// Where it writes.
    pub fn path(&self) -> &Path
        ensures { result.now ≡ write_path self.now }
    {
        match self {
            Write::Single(path, _)
            | Write::Extent(path, _, _)
            | Write::PunchObject(path)
            | Write::PunchDkey(path)
            | Write::PunchAkey(path) => path,
        }
    }

    /// The same write again.
    pub fn copy(&self) -> Result<Write, Memory>
        ensures { IfOk result (λ write. write ≡ self.now) }
    {
        match self {
            Write::Single(path, bytes) => Ok(Write::Single(path.copy()?, bytes.copy()?)),
            Write::Extent(path, low, bytes) => {
                Ok(Write::Extent(path.copy()?, *low, bytes.copy()?))
            }
            Write::PunchObject(path) => Ok(Write::PunchObject(path.copy()?)),
            Write::PunchDkey(path) => Ok(Write::PunchDkey(path.copy()?)),
            Write::PunchAkey(path) => Ok(Write::PunchAkey(path.copy()?)),
        }
    }
}

/// A question. A path ends at the level of its question: an akey for `Single` and `Extent` (the
/// index of its first record and how many, from 1 on and 1,024 bytes at most), a dkey for `Akeys`,
/// an object for `Dkeys`, any level for `Exists`.
#[derive(Drop)]
pub enum Read {
    Single(Path),
    Extent(Path, u32, u32),
    Dkeys(Path),
    Akeys(Path),
    Exists(Path),
}

impl Read {
    /// Where it reads.
    pub fn path(&self) -> &Path
        ensures { result.now ≡ read_path self.now }
    {
        match self {
            Read::Single(path)
            | Read::Extent(path, _, _)
            | Read::Dkeys(path)
            | Read::Akeys(path)
            | Read::Exists(path) => path,
        }
    }

    /// The same read again.
    pub fn copy(&self) -> Result<Read, Memory>
        ensures { IfOk result (λ read. read ≡ self.now) }
    {
        match self {
            Read::Single(path) => Ok(Read::Single(path.copy()?)),
            Read::Extent(path, low, len) => Ok(Read::Extent(path.copy()?, *low, *len)),
            Read::Dkeys(path) => Ok(Read::Dkeys(path.copy()?)),
            Read::Akeys(path) => Ok(Read::Akeys(path.copy()?)),
            Read::Exists(path) => Ok(Read::Exists(path.copy()?)),
        }
    }
}

/// What is asked of the state before an operation: nothing, that its path has a cell, or that it
/// has none.
#[derive(Clone, Copy)]
pub enum Cond {
    Free,
    Must,
    MustNot,
}

/// What an operation does.
#[derive(Drop)]
pub enum Act {
    Fetch(Read),
    Change(Write),
}

impl Act {
    /// Where it reads or writes.
    pub fn path(&self) -> &Path
        ensures { result.now ≡ act_path self.now }
    {
        match self {
            Act::Fetch(read) => read.path(),
            Act::Change(write) => write.path(),
        }
    }

    /// The same act again.
    pub fn copy(&self) -> Result<Act, Memory>
        ensures { IfOk result (λ act. act ≡ self.now) }
    {
        match self {
            Act::Fetch(read) => Ok(Act::Fetch(read.copy()?)),
            Act::Change(write) => Ok(Act::Change(write.copy()?)),
        }
    }
}

/// An operation of a transaction.
#[derive(Drop)]
pub struct Op {
    pub act: Act,
    pub cond: Cond,
}

impl TryCopy for Op {
    fn copy(&self) -> Result<Op, Memory> {
        Ok(Op {
            act: self.act.copy()?,
            cond: self.cond,
        })
    }
}

/// The operations of a transaction, numbered from 0; 1 to 64 of them.
pub type Ops = Items<Op>;

/// A write with its number in the transaction, below 64.
#[derive(Drop)]
pub struct MinorWrite {
    pub minor: u8,
    pub write: Write,
}

impl TryCopy for MinorWrite {
    fn copy(&self) -> Result<MinorWrite, Memory> {
        Ok(MinorWrite {
            minor: self.minor,
            write: self.write.copy()?,
        })
    }
}

/// Writes of a transaction, with rising numbers.
pub type MinorWrites = Items<MinorWrite>;
