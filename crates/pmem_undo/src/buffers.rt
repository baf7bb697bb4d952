// The memory of an undo region.
ghost use Rattle.std.specs.Prelude.{◌≡◌, ◌≤◌, [], IfOk, vec_len, vec_capacity};

use crate::span::Span;
use crate::{BODY_ROOM, MOST_BYTES, MOST_RANGES};
use base_outside::Memory;
use std::alloc::Global;

/// Room for the ranges of a commit, for their bytes, and for the log body.
#[derive(Drop)]
pub struct Buffers {
    pub spans: Vec<Span>,
    pub staged: Vec<u8>,
    pub body: Vec<u8>,
}

// So many zeros.
fn zeros(alloc: Global, count: usize) -> Result<Vec<u8>, Memory>
    ensures { IfOk result (λ v. vec_len v ≡ count) }
{
    Ok(vec![in alloc; 0u8; count]?)
}

/// Takes the memory. Nothing is staged.
pub fn take_buffers(alloc: Global) -> Result<Buffers, Memory>
    ensures spans { IfOk result (λ b. b.spans.items ≡ []) }
    ensures spans_fit { IfOk result (λ b. 1024 ≤ vec_capacity b.spans) }
    ensures staged { IfOk result (λ b. b.staged.items ≡ []) }
    ensures bytes_fit { IfOk result (λ b. 256000 ≤ vec_capacity b.staged) }
    ensures body_fits { IfOk result (λ b. 264200 ≤ vec_len b.body) }
{
    Ok(Buffers {
        spans: Vec::with_capacity(alloc, MOST_RANGES)?,
        staged: Vec::with_capacity(alloc, MOST_BYTES)?,
        body: zeros(alloc, BODY_ROOM)?,
    })
}
