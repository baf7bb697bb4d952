// A region with an undo log.
ghost use Rattle.std.specs.Prelude.{◌≡◌, ◌↔◌, ℕ, ◌+◌, ◌-◌, ◌^◌, ◌<◌, ◌≤◌, [], ◌∷◌, ◌++◌, List, length, false, true, IfOk, IfErr, OnOk, OnErr, IsErr, IsTrue, MatchBool, vec_capacity};
ghost use Rattle.base_outside.specs.Images.{Image, all_over, bytes_at, LeavesOnly, Runs, SameButFuse};
ghost use Rattle.pmem_pages.specs.Blocks.{Stops};
ghost use Rattle.pmem_undo.specs.Layout.{IsContent, SameContent, most_ranges, most_bytes, total_bytes};
ghost use Rattle.pmem_undo.specs.Settled.{IsAttachable, IsBeforeOrAfter, ComesFrom, OnlyLooks, reads, commit_calls};
ghost use Rattle.pmem_undo.specs.Undo.{IsUndo, IsTooMuch, HasRoom};

use crate::commit::commit_ranges;
use crate::show::show;
use crate::span::Span;
use crate::{MOST_BYTES, MOST_RANGES};
use base_outside::Failed;
use base_outside::region::{Fusible, Region};
use pmem_pages::refusal::{Stopped, TooMuch};
use std::marker::Model;

/// A region whose ranges are changed by commits, each of them whole or not at all.
#[derive(Drop)]
pub struct UndoRegion<R: Region> {
    pub(crate) region: R,
    pub(crate) spans: Vec<Span>,
    pub(crate) staged: Vec<u8>,
    pub(crate) body: Vec<u8>,
    pub(crate) stopped: bool,
}

impl<R: Region> Model for UndoRegion<R> {
    ghost use Rattle.std.specs.Prelude.{◌≡◌, length, vec_len, vec_capacity, IsTrue, false};
    ghost use Rattle.pmem_undo.specs.Undo.{UndoState, HasBuffers};
    ghost use Rattle.pmem_undo.specs.Spans.{ranges_of};
    ghost use Rattle.pmem_undo.specs.Settled.{IsAtRest, IsAttachable};
    ghost use Rattle.base_outside.specs.Images.{Image};

    ghost Value = { UndoState R };

    ghost view = { λ u. record {
      region = u.region;
      staged = ranges_of u.staged.items u.spans.items;
      stopped = u.stopped;
    } };

    ghost invariant = { λ u.
        HasBuffers (R.extent u.region) u.spans.items (vec_capacity u.spans) (length u.staged.items) (vec_capacity u.staged) (length u.body.items)
        × (IsTrue R.tells → u.stopped ≡ false → IsAtRest (R.image u.region) (R.may_leave u.region))
        × (IsTrue R.tells → (c : Image) → R.may_leave u.region c → IsAttachable (R.extent u.region) c) };
}

// Whether beside so many ranges and bytes one range more may be staged.
fn is_room(ranges: usize, bytes: usize, more: usize) -> bool
    requires { bytes ≤ 256000 }
    ensures { IsTrue result ↔ ((ranges + 1 ≤ 1024) × (bytes + more ≤ 256000)) }
{
    ranges < MOST_RANGES && more <= MOST_BYTES - bytes
}

// How many ranges and bytes may be staged beside so many.
fn left_beside(ranges: usize, bytes: usize) -> (u32, u32)
    requires ranges { ranges ≤ 1024 }
    requires bytes { bytes ≤ 256000 }
    ensures ranges { result.0 ≡ 1024 - ranges }
    ensures bytes { result.1 ≡ 256000 - bytes }
{
    ((MOST_RANGES - ranges) as u32, (MOST_BYTES - bytes) as u32)
}

// Puts a range behind those that are staged.
fn push_range(spans: &mut Vec<Span>, staged: &mut Vec<u8>, place: u64, bytes: &[u8])
    requires room { length spans.old.items < vec_capacity spans.old }
    requires fits { length staged.old.items + length bytes.now ≤ vec_capacity staged.old }
    ensures spans { spans.new.items ≡ spans.old.items ++ record { place = place; start = length staged.old.items; length = length bytes.now } ∷ [] }
    ensures staged { staged.new.items ≡ staged.old.items ++ bytes.now }
    ensures spans_room { vec_capacity spans.old ≤ vec_capacity spans.new }
    ensures bytes_room { vec_capacity staged.old ≤ vec_capacity staged.new }
{
    let start = staged.len();
    staged.extend_from_slice(bytes).unwrap();
    spans
        .push(Span {
            place,
            start,
            length: bytes.len(),
        })
        .unwrap();
}

impl<R: Region> UndoRegion<R> {
    /// The region below.
    pub fn region(&self) -> &R
        ensures { result.now ≡ self.now.region }
    {
        &self.region
    }

    /// Whether it stopped.
    pub fn is_stopped(&self) -> bool
        ensures { result ≡ self.now.stopped }
    {
        self.stopped
    }

    /// How many bytes the region has. Each is a number below 256.
    pub fn size(&self) -> u64
        ensures size { result ≡ R.extent self.now.region }
        ensures bytes { IsTrue R.tells → (i : ℕ) → R.image self.now.region i < 256 }
        ensures holds { IsUndo (R.extent self.now.region) R.tells (R.image self.now.region) (R.may_leave self.now.region) self.now.staged self.now.stopped }
    {
        self.region.size()
    }

    /// Whether one range more of so many bytes may be staged.
    pub fn has_room(&self, bytes: usize) -> bool
        ensures { MatchBool result (HasRoom self.now.staged bytes) (IsTooMuch self.now.staged bytes) }
    {
        is_room(self.spans.len(), self.staged.len(), bytes)
    }

    /// How many ranges are left to stage, and how many bytes.
    pub fn left(&self) -> (u32, u32)
        ensures ranges { result.0 ≡ most_ranges - length self.now.staged }
        ensures bytes { result.1 ≡ most_bytes - total_bytes self.now.staged }
    {
        left_beside(self.spans.len(), self.staged.len())
    }

    /// Stages bytes for the next commit, from a place of the region on.
    ///
    /// # Errors
    ///
    /// `TooMuch` comes exactly where there would be more than 1,024 ranges, or more than 256,000 bytes
    /// of them together. Then nothing is staged.
    pub fn stage(&mut self, at: u64, bytes: &[u8]) -> Result<(), TooMuch>
        requires { IsContent (R.extent self.old.region) at (length bytes.now) }
        ensures staged { OnOk result (self.new ≡ record self.old { staged = self.old.staged ++ record { place = at; bytes = bytes.now } ∷ [] }) }
        ensures kept { OnErr result (self.new ≡ self.old) }
        ensures refused { IsErr result ↔ IsTooMuch self.old.staged (length bytes.now) }
        ensures holds { IsUndo (R.extent self.new.region) R.tells (R.image self.new.region) (R.may_leave self.new.region) self.new.staged self.new.stopped }
    {
        if !is_room(self.spans.len(), self.staged.len(), bytes.len()) {
            return Err(TooMuch);
        }
        push_range(&mut self.spans, &mut self.staged, at, bytes);
        Ok(())
    }

    /// Commits what is staged. At `Ok` every later crash leaves it. A crash at any moment of the call
    /// leaves an image that stands for the content before the commit, or for that after it. Whatever a
    /// crash may leave after the call comes from an image that one could leave before it.
    ///
    /// # Errors
    ///
    /// `Stopped` comes only where a count of the region rose in this call, or it had stopped before.
    /// From then on every commit and every read answers it.
    pub fn commit(&mut self) -> Result<(), Stopped>
        ensures committed { OnOk result (IsTrue R.tells → SameContent (R.image self.new.region) (all_over self.old.staged (R.image self.old.region))) }
        ensures any_moment { IsTrue R.tells → LeavesOnly (R.moment self.old.region) (R.moment self.new.region) (R.left_since self.old.region) (R.left_since self.new.region)
            (IsBeforeOrAfter (R.extent self.old.region) (R.image self.old.region) self.old.staged) }
        ensures left { IsTrue R.tells → self.old.stopped ≡ false → (c : Image) → R.may_leave self.new.region c →
            IsBeforeOrAfter (R.extent self.old.region) (R.image self.old.region) self.old.staged c }
        ensures from { IsTrue R.tells → ComesFrom (R.extent self.old.region) self.old.staged (R.may_leave self.old.region) (R.may_leave self.new.region) }
        ensures calls { OnOk result ((body : List ℕ) × Runs R.did (reads (length self.old.staged) ++ commit_calls body self.old.staged) self.old.region self.new.region) }
        ensures staged { OnOk result (self.new.staged ≡ []) }
        ensures kept { OnErr result (self.new.staged ≡ self.old.staged) }
        ensures extent { R.extent self.new.region ≡ R.extent self.old.region }
        ensures untouched { self.old.stopped ≡ true → self.new ≡ self.old }
        ensures stops { Stops self.old.stopped self.new.stopped (R.count self.old.region) (R.count self.new.region)
            (R.burns self.old.region) (R.burns self.new.region) result }
        ensures holds { IsUndo (R.extent self.new.region) R.tells (R.image self.new.region) (R.may_leave self.new.region) self.new.staged self.new.stopped }
    {
        if self.stopped {
            return Err(Stopped);
        }
        match commit_ranges(&mut self.region, &self.spans, &self.staged, &mut self.body) {
            Ok(()) => {
                self.spans.clear();
                self.staged.clear();
                Ok(())
            }
            Err(_) => {
                self.stopped = true;
                Err(Stopped)
            }
        }
    }

    /// Reads the bytes from `at` on into the whole of `buf`, with what is staged over them.
    ///
    /// # Errors
    ///
    /// `Stopped` comes only where a count of the region rose in this call, or it had stopped before.
    /// From then on every commit and every read answers it.
    pub fn read(&mut self, at: u64, buf: &mut [u8]) -> Result<(), Stopped>
        requires { IsContent (R.extent self.old.region) at (length buf.old) }
        ensures bytes { OnOk result (IsTrue R.tells → buf.new ≡ bytes_at (all_over self.old.staged (R.image self.old.region)) at (length buf.old)) }
        ensures looks { IsTrue R.tells → OnlyLooks (R.image self.old.region) (R.image self.new.region) (R.may_leave self.old.region) (R.may_leave self.new.region)
            (R.moment self.old.region) (R.moment self.new.region) (R.left_since self.old.region) (R.left_since self.new.region) }
        ensures staged { self.new.staged ≡ self.old.staged }
        ensures extent { R.extent self.new.region ≡ R.extent self.old.region }
        ensures untouched { self.old.stopped ≡ true → self.new ≡ self.old }
        ensures stops { Stops self.old.stopped self.new.stopped (R.count self.old.region) (R.count self.new.region)
            (R.burns self.old.region) (R.burns self.new.region) result }
        ensures holds { IsUndo (R.extent self.new.region) R.tells (R.image self.new.region) (R.may_leave self.new.region) self.new.staged self.new.stopped }
    {
        if self.stopped {
            return Err(Stopped);
        }
        if self.region.read(at, buf).is_err() {
            self.stopped = true;
            return Err(Stopped);
        }
        show(&self.spans, &self.staged, self.region.size(), at, buf);
        Ok(())
    }

    /// Forgets what is staged.
    pub fn drop_stage(&mut self)
        ensures dropped { self.new ≡ record self.old { staged = [] } }
        ensures holds { IsUndo (R.extent self.new.region) R.tells (R.image self.new.region) (R.may_leave self.new.region) self.new.staged self.new.stopped }
    {
        self.spans.clear();
        self.staged.clear();
    }

    /// Takes it apart.
    pub fn into_region(self) -> R
        ensures region { result ≡ self.region }
        ensures attachable { IsTrue R.tells → (c : Image) → R.may_leave self.region c → IsAttachable (R.extent self.region) c }
    {
        let UndoRegion {
            region,
            spans: _spans,
            staged: _staged,
            body: _body,
            stopped: _stopped,
        } = self;
        region
    }
}

impl<R: Fusible> UndoRegion<R> {
    /// Sets the fuse of the region below: its `k`-th write from now on fails. 0 sets none, and takes away
    /// one that is set.
    pub fn set_fuse(&mut self, k: u32)
        ensures fuse { SameButFuse R.extent R.count R.burns R.tells R.image R.may_leave R.moment R.left_since R.broken R.did self.old.region self.new.region }
        ensures rest { self.new ≡ record self.old { region = self.new.region } }
        ensures holds { IsUndo (R.extent self.new.region) R.tells (R.image self.new.region) (R.may_leave self.new.region) self.new.staged self.new.stopped }
    {
        self.region.set_fuse(k);
    }
}
