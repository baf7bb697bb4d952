// Where bytes come from.
ghost use Rattle.std.specs.Prelude.{◌≡◌, ℕ, ◌+◌, ◌^◌, ◌<◌, ◌≤◌, List, IfOk, OnOk, IsErrOf, vec_len};
ghost use Rattle.std.specs.declared.option.Option.{Option};
ghost use Rattle.std.specs.Io.{ReadsAtMost};
ghost use Rattle.std.specs.Io.KnownBytes.{ReadConsumes, Consumes, IsAtEnd};
ghost use Rattle.base_outside.specs.Causes.{HasCause, Rose};
ghost use Rattle.base_outside.specs.Transfers.{ConsumesSome, ConsumesAtMost};

use crate::Failed;
use std::alloc::{AllocError, Global};
use thiserror::Error;

/// Where bytes come from. It counts its faults.
pub trait Source {
    /// The bytes that are left, where it tells them.
    ghost left: { Self → Option (List ℕ) };

    /// How often it has failed, up to 2^64 - 1.
    ghost count: { Self → ℕ };

    /// Reads some bytes into the front of `buf`, and says how many. 0 for a buffer that isn't
    /// empty is the end.
    ///
    /// # Errors
    ///
    /// `Failed` comes only where the count of faults rose in this call. Nothing was consumed then.
    fn read(&mut self, buf: &mut [u8]) -> Result<usize, Failed>
        ensures bound { ReadsAtMost result buf.new }
        ensures bytes { ReadConsumes (left self.old) (left self.new) result buf.new }
        ensures cause { HasCause (count self.old) (count self.new) result };

    /// How often it has failed, up to 2^64 - 1.
    fn faults(&self) -> u64
        ensures { result ≡ count self.now };
}

/// Why a source was not read to its end.
#[derive(Clone, Copy, Debug, Error)]
pub enum ReadNo {
    /// A read failed.
    #[error("read fault")]
    Fault,
    /// The source has more bytes than the limit.
    #[error("too long")]
    TooLong,
    /// There was no memory for the bytes.
    #[error("out of memory")]
    Memory,
}

impl From<AllocError> for ReadNo {
    ghost use Rattle.std.specs.Prelude.{◌≡◌};
    ghost use Rattle.base_outside.specs.declared.source.ReadNo.TheVariants.{Memory};

    ghost from_gives = { λ _ e. e ≡ Memory };

    fn from(_error: AllocError) -> ReadNo {
        ReadNo::Memory
    }
}

/// How many bytes one read asks for at most.
const PIECE: usize = 4096;

/// Reads a source to its end, but no more than `most` bytes.
///
/// # Errors
///
/// `Fault` only where the source's count of faults rose in this call. `Memory` for want of memory.
pub fn read_most<S: Source>(alloc: Global, source: &mut S, most: usize) -> Result<Vec<u8>, ReadNo>
    requires { most < 2 ^ 33 }
    ensures bytes { IfOk result (λ v. Consumes (S.left source.old) (S.left source.new) v.items) }
    ensures end { IfOk result (λ v. vec_len v < most → IsAtEnd (S.left source.new)) }
    ensures within { IfOk result (λ v. vec_len v ≤ most) }
    ensures refusals { IsErrOf result ReadNo.TooLong → ⊥ }
    ensures fault { IsErrOf result ReadNo.Fault → Rose (S.count source.old) (S.count source.new) }
    ensures later { S.count source.old ≤ S.count source.new }
    ensures consumed { ConsumesAtMost (S.left source.old) (S.left source.new) most }
{
    let mut bytes = Vec::new(alloc);
    let mut piece = [0u8; PIECE];
    while bytes.len() < most {
        let wanted = PIECE.min(most - bytes.len());
        match source.read(&mut piece[..wanted]) {
            Ok(0) => return Ok(bytes),
            Ok(count) => bytes.extend_from_slice(&piece[..count])?,
            Err(Failed) => return Err(ReadNo::Fault),
        }
    }
    Ok(bytes)
}

/// Reads a source to its end, where it has at most `limit` bytes. No more than `limit + 1` bytes
/// are ever taken from it.
///
/// # Errors
///
/// `TooLong` where more than `limit` bytes are left in the source: `limit + 1` of them are then
/// consumed. `Fault` only where the source's count of faults rose in this call. `Memory` for want of
/// memory.
pub fn read_all<S: Source>(alloc: Global, source: &mut S, limit: usize) -> Result<Vec<u8>, ReadNo>
    requires { limit < 2 ^ 32 }
    ensures whole { IfOk result (λ v. Consumes (S.left source.old) (S.left source.new) v.items) }
    ensures end { OnOk result (IsAtEnd (S.left source.new)) }
    ensures within { IfOk result (λ v. vec_len v ≤ limit) }
    ensures too_long { IsErrOf result ReadNo.TooLong →
        ConsumesSome (S.left source.old) (S.left source.new) (limit + 1) }
    ensures fault { IsErrOf result ReadNo.Fault → Rose (S.count source.old) (S.count source.new) }
    ensures later { S.count source.old ≤ S.count source.new }
    ensures consumed { ConsumesAtMost (S.left source.old) (S.left source.new) (limit + 1) }
{
    let bytes = read_most(alloc, source, limit + 1)?;
    if bytes.len() > limit {
        return Err(ReadNo::TooLong);
    }
    Ok(bytes)
}
