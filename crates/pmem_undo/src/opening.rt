// An undo region is begun, or attached to a region that has one.
ghost use Rattle.std.specs.Prelude.{◌≡◌, ◌⊎◌, ◌^◌, ◌<◌, ◌≤◌, [], ◌∷◌, length, IfOk, IfErr, OnOk, IsTrue, vec_capacity};
ghost use Rattle.base_outside.specs.Causes.{HasEitherCause};
ghost use Rattle.base_outside.specs.Images.{Image, over, LeavesOnly};
ghost use Rattle.base_outside.specs.Images.Call.{Read, Flush};
ghost use Rattle.pmem_undo.specs.Layout.{gate_byte};
ghost use Rattle.pmem_undo.specs.Settled.{settled, IsAttachable, IsAtRest, IsUndoneBy, StandsFor};
ghost use Rattle.pmem_undo.specs.Undo.{IsUndo};
ghost use Rattle.pmem_undo.specs.Opening.{IsBegun, IsGivenBack};
ghost use Rattle.pmem_undo.specs.declared.opening.UndoCause.{UndoCause};

use crate::GATE;
use crate::buffers::take_buffers;
use crate::restore::restore;
use crate::span::Span;
use crate::undo_region::UndoRegion;
use base_outside::Failed;
use base_outside::region::Region;
use std::alloc::Global;
use thiserror::Error;

/// Why no undo region was opened.
#[derive(Clone, Copy, Debug, Error)]
pub enum UndoCause {
    #[error("stopped")]
    Stopped,
    #[error("out of memory")]
    Memory,
}

/// The region that was handed in, and why it isn't opened.
#[derive(Drop)]
pub struct UndoNo<R> {
    pub region: R,
    pub cause: UndoCause,
}

impl<R: Region> UndoRegion<R> {
    /// Begins an undo region: the gate is closed, whatever it was, and all other bytes stay.
    ///
    /// # Errors
    ///
    /// `Stopped` comes only where a count of the region rose in this call. After `Memory` the region is as
    /// it was.
    pub fn format(alloc: Global, region: R) -> Result<Self, UndoNo<R>>
        requires big { 323584 ≤ R.extent region }
        requires small { R.extent region < 2 ^ 32 }
        ensures begun { IfOk result (λ u. IsBegun R.extent R.count R.burns region u) }
        ensures holds { IfOk result (λ u. IsUndo (R.extent u.region) R.tells (R.image u.region) (R.may_leave u.region) u.staged u.stopped) }
        ensures image { IfOk result (λ u. IsTrue R.tells → R.image u.region ≡ over (gate_byte 0) (R.image region)) }
        ensures given_back { IfErr result (λ e. IsGivenBack R.extent R.count R.burns region e.region e.cause) }
        ensures memory { IfErr result (λ e. e.cause ≡ UndoCause.Memory → e.region ≡ region) }
    {
        let mut region = region;
        let Ok(buffers) = take_buffers(alloc) else {
            return Err(UndoNo {
                region,
                cause: UndoCause::Memory,
            });
        };
        if close_gate(&mut region).is_err() {
            return Err(UndoNo {
                region,
                cause: UndoCause::Stopped,
            });
        }
        Ok(UndoRegion {
            region,
            spans: buffers.spans,
            staged: buffers.staged,
            body: buffers.body,
            stopped: false,
        })
    }

    /// Attaches to a region, which it flushes first. Where its gate is open it has the bytes from before
    /// the commit that was cut, which are written back, the last range first. A crash at any moment of the
    /// call leaves an image that stands for the same content, or one that could be left before the call,
    /// where something wasn't flushed then. Also of a region that doesn't tell its bytes only ranges are
    /// written back that a log may tell: at most 1,024 of at most 256,000 bytes together, each inside the
    /// region, outside the gate byte and the log body.
    ///
    /// # Errors
    ///
    /// `Stopped` comes only where a count of the region rose in this call. After `Memory` the region is as
    /// it was.
    pub fn attach(alloc: Global, region: R) -> Result<Self, UndoNo<R>>
        requires big { 323584 ≤ R.extent region }
        requires small { R.extent region < 2 ^ 32 }
        requires log { IsTrue R.tells → IsAttachable (R.extent region) (R.image region) }
        ensures begun { IfOk result (λ u. IsBegun R.extent R.count R.burns region u) }
        ensures holds { IfOk result (λ u. IsUndo (R.extent u.region) R.tells (R.image u.region) (R.may_leave u.region) u.staged u.stopped) }
        ensures image { IfOk result (λ u. IsTrue R.tells → R.image u.region ≡ settled (R.extent region) (R.image region)) }
        ensures any_moment { IfOk result (λ u. IsTrue R.tells → LeavesOnly (R.moment region) (R.moment u.region) (R.left_since region) (R.left_since u.region)
            (StandsFor (R.extent region) (settled (R.extent region) (R.image region)))) }
        ensures calls { IfOk result (λ u. IsUndoneBy R.did (R.extent region) (Flush ∷ Read ∷ []) region u.region) }
        ensures given_back { IfErr result (λ e. IsGivenBack R.extent R.count R.burns region e.region e.cause) }
        ensures memory { IfErr result (λ e. e.cause ≡ UndoCause.Memory → e.region ≡ region) }
        ensures any_moment_err { IfErr result (λ e. IsTrue R.tells → LeavesOnly (R.moment region) (R.moment e.region) (R.left_since region) (R.left_since e.region)
            (StandsFor (R.extent region) (settled (R.extent region) (R.image region)))) }
        ensures left_err { IfErr result (λ e. IsTrue R.tells → (c : Image) → R.may_leave e.region c →
            R.may_leave region c ⊎ StandsFor (R.extent region) (settled (R.extent region) (R.image region)) c) }
    {
        let mut region = region;
        let Ok(mut buffers) = take_buffers(alloc) else {
            return Err(UndoNo {
                region,
                cause: UndoCause::Memory,
            });
        };
        if flush_and_restore(&mut region, &mut buffers.spans, &mut buffers.body).is_err() {
            return Err(UndoNo {
                region,
                cause: UndoCause::Stopped,
            });
        }
        buffers.spans.clear();
        Ok(UndoRegion {
            region,
            spans: buffers.spans,
            staged: buffers.staged,
            body: buffers.body,
            stopped: false,
        })
    }
}

// Makes what was written last, and undoes what the log tells, where its gate is open.
fn flush_and_restore<R: Region>(
    region: &mut R,
    spans: &mut Vec<Span>,
    body: &mut [u8],
) -> Result<(), Failed>
    requires place { 307200 ≤ R.extent region.old }
    requires room { 264192 ≤ length body.old }
    requires spans { 1024 ≤ vec_capacity spans.old }
    requires log { IsTrue R.tells → IsAttachable (R.extent region.old) (R.image region.old) }
    ensures extent { R.extent region.new ≡ R.extent region.old }
    ensures cause { HasEitherCause (R.count region.old) (R.count region.new) (R.burns region.old) (R.burns region.new) result }
    ensures image { OnOk result (IsTrue R.tells → R.image region.new ≡ settled (R.extent region.old) (R.image region.old)) }
    ensures rest { OnOk result (IsTrue R.tells → IsAtRest (R.image region.new) (R.may_leave region.new)) }
    ensures any_moment { IsTrue R.tells → LeavesOnly (R.moment region.old) (R.moment region.new) (R.left_since region.old) (R.left_since region.new)
        (StandsFor (R.extent region.old) (settled (R.extent region.old) (R.image region.old))) }
    ensures left { IsTrue R.tells → (c : Image) → R.may_leave region.new c →
        R.may_leave region.old c ⊎ StandsFor (R.extent region.old) (settled (R.extent region.old) (R.image region.old)) c }
    ensures room_left { 1024 ≤ vec_capacity spans.new }
    ensures calls { OnOk result (IsUndoneBy R.did (R.extent region.old) (Flush ∷ Read ∷ []) region.old region.new) }
{
    region.flush()?;
    restore(region, spans, body)
}

// Closes the gate.
fn close_gate<R: Region>(region: &mut R) -> Result<(), Failed>
    requires { 32769 ≤ R.extent region.old }
    ensures extent { R.extent region.new ≡ R.extent region.old }
    ensures cause { HasEitherCause (R.count region.old) (R.count region.new) (R.burns region.old) (R.burns region.new) result }
    ensures image { OnOk result (IsTrue R.tells → R.image region.new ≡ over (gate_byte 0) (R.image region.old)) }
    ensures rest { OnOk result (IsTrue R.tells → IsAtRest (R.image region.new) (R.may_leave region.new)) }
{
    region.write(GATE, &[0])?;
    region.flush()
}
