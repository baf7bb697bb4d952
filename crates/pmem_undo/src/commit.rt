// The writes of a commit.
ghost use Rattle.std.specs.Prelude.{◌≡◌, ℕ, ◌+◌, ◌^◌, ◌<◌, ◌≤◌, [], ◌∷◌, ◌++◌, List, length, All, OnOk, IsTrue};
ghost use Rattle.base_outside.specs.Causes.{HasEitherCause};
ghost use Rattle.base_outside.specs.Images.{Image, Range, over, all_over, Only, Tears, Torn, LeavesOnly, Runs};
ghost use Rattle.base_outside.specs.Images.Call.{Write, Flush};
ghost use Rattle.pmem_undo.specs.Layout.{gate_byte, SameContent};
ghost use Rattle.pmem_undo.specs.Settled.{StandsFor, IsBeforeOrAfter, IsAtRest, IsPrepared, body_range, log_opened, reads, writes, commit_calls};
ghost use Rattle.pmem_undo.specs.Spans.{IsSpan, ranges_of, spans_length};

use crate::log::put_log;
use crate::span::Span;
use crate::{GATE, LOG};
use base_outside::Failed;
use base_outside::region::Region;

/// Writes the ranges of these spans of a buffer, the first of them first.
fn write_ranges<R: Region>(region: &mut R, spans: &[Span], buffer: &[u8]) -> Result<(), Failed>
    requires { All (IsSpan (R.extent region.old) (length buffer.now)) spans.now }
    ensures extent { R.extent region.new ≡ R.extent region.old }
    ensures cause { HasEitherCause (R.count region.old) (R.count region.new) (R.burns region.old) (R.burns region.new) result }
    ensures image { OnOk result (IsTrue R.tells → R.image region.new ≡ all_over (ranges_of buffer.now spans.now) (R.image region.old)) }
    ensures crash { IsTrue R.tells → Tears (ranges_of buffer.now spans.now) (R.may_leave region.old) (R.may_leave region.new) }
    ensures time { IsTrue R.tells → LeavesOnly (R.moment region.old) (R.moment region.new) (R.left_since region.old) (R.left_since region.new)
        (λ c. (d : Image) × (R.may_leave region.old d × Torn (ranges_of buffer.now spans.now) d c)) }
    ensures calls { OnOk result (Runs R.did (writes (ranges_of buffer.now spans.now)) region.old region.new) }
{
    for span in spans {
        region.write(span.place, &buffer[span.start..span.start + span.length])?;
    }
    Ok(())
}

/// Writes the body of the log, and opens the gate.
fn open_log<R: Region>(region: &mut R, body: &[u8]) -> Result<(), Failed>
    requires room { 36864 + length body.now ≤ R.extent region.old }
    requires only { IsTrue R.tells → Only (R.image region.old) (R.may_leave region.old) }
    ensures extent { R.extent region.new ≡ R.extent region.old }
    ensures cause { HasEitherCause (R.count region.old) (R.count region.new) (R.burns region.old) (R.burns region.new) result }
    ensures image { OnOk result (IsTrue R.tells → R.image region.new ≡ log_opened body.now (R.image region.old)) }
    ensures only { OnOk result (IsTrue R.tells → Only (R.image region.new) (R.may_leave region.new)) }
    ensures any_moment { IsTrue R.tells → (size : ℕ) (ranges : List Range) → IsPrepared size (R.image region.old) ranges body.now →
        LeavesOnly (R.moment region.old) (R.moment region.new) (R.left_since region.old) (R.left_since region.new) (StandsFor size (R.image region.old)) }
    ensures calls { OnOk result (Runs R.did (Write (body_range body.now) ∷ Flush ∷ Write (gate_byte 1) ∷ Flush ∷ []) region.old region.new) }
{
    region.write(LOG, body)?;
    region.flush()?;
    region.write(GATE, &[1])?;
    region.flush()
}

/// Writes the ranges of these spans of a buffer, and closes the gate.
fn close_log<R: Region>(region: &mut R, spans: &[Span], buffer: &[u8]) -> Result<(), Failed>
    requires room { 36864 ≤ R.extent region.old }
    requires spans { All (IsSpan (R.extent region.old) (length buffer.now)) spans.now }
    requires only { IsTrue R.tells → Only (R.image region.old) (R.may_leave region.old) }
    ensures extent { R.extent region.new ≡ R.extent region.old }
    ensures cause { HasEitherCause (R.count region.old) (R.count region.new) (R.burns region.old) (R.burns region.new) result }
    ensures image { OnOk result (IsTrue R.tells → R.image region.new ≡ over (gate_byte 0) (all_over (ranges_of buffer.now spans.now) (R.image region.old))) }
    ensures only { OnOk result (IsTrue R.tells → Only (R.image region.new) (R.may_leave region.new)) }
    ensures any_moment { IsTrue R.tells → (size : ℕ) (f : Image) (body : List ℕ) → IsPrepared size f (ranges_of buffer.now spans.now) body → R.image region.old ≡ log_opened body f →
        LeavesOnly (R.moment region.old) (R.moment region.new) (R.left_since region.old) (R.left_since region.new) (IsBeforeOrAfter size f (ranges_of buffer.now spans.now)) }
    ensures calls { OnOk result (Runs R.did (writes (ranges_of buffer.now spans.now) ++ Flush ∷ Write (gate_byte 0) ∷ Flush ∷ []) region.old region.new) }
{
    write_ranges(region, spans, buffer)?;
    region.flush()?;
    region.write(GATE, &[0])?;
    region.flush()
}

/// Commits the ranges of these spans of a buffer, by a log that is made in `body`.
pub(crate) fn commit_ranges<R: Region>(
    region: &mut R,
    spans: &[Span],
    staged: &[u8],
    body: &mut [u8],
) -> Result<(), Failed>
    requires big { 307200 ≤ R.extent region.old }
    requires small { R.extent region.old < 2 ^ 32 }
    requires spans { All (IsSpan (R.extent region.old) (length staged.now)) spans.now }
    requires few { length spans.now ≤ 1024 }
    requires total { length staged.now ≡ spans_length spans.now }
    requires short { length staged.now ≤ 256000 }
    requires body { 264200 ≤ length body.old }
    requires rest { IsTrue R.tells → IsAtRest (R.image region.old) (R.may_leave region.old) }
    ensures extent { R.extent region.new ≡ R.extent region.old }
    ensures cause { HasEitherCause (R.count region.old) (R.count region.new) (R.burns region.old) (R.burns region.new) result }
    ensures committed { OnOk result (IsTrue R.tells → SameContent (R.image region.new) (all_over (ranges_of staged.now spans.now) (R.image region.old))) }
    ensures rest { OnOk result (IsTrue R.tells → IsAtRest (R.image region.new) (R.may_leave region.new)) }
    ensures any_moment { IsTrue R.tells → LeavesOnly (R.moment region.old) (R.moment region.new) (R.left_since region.old) (R.left_since region.new)
        (IsBeforeOrAfter (R.extent region.old) (R.image region.old) (ranges_of staged.now spans.now)) }
    ensures left { IsTrue R.tells → (c : Image) → R.may_leave region.new c →
        IsBeforeOrAfter (R.extent region.old) (R.image region.old) (ranges_of staged.now spans.now) c }
    ensures calls { OnOk result ((bytes : List ℕ) × Runs R.did (reads (length spans.now) ++ commit_calls bytes (ranges_of staged.now spans.now)) region.old region.new) }
{
    let end = put_log(region, spans, staged.len(), body)?;
    open_log(region, &body[..end])?;
    close_log(region, spans, staged)
}
