// The log body is made of the old bytes.
ghost use Rattle.std.specs.Prelude.{◌≡◌, ℕ, ◌+◌, ◌*◌, ◌^◌, ◌<◌, ◌≤◌, ◌++◌, length, take, All, IfOk, OnOk, IsTrue};
ghost use Rattle.base_outside.specs.Causes.{HasEitherCause};
ghost use Rattle.base_outside.specs.Images.{bytes_at, Runs};
ghost use Rattle.base_outside.specs.Images.Call.{Read};
ghost use Rattle.pmem_undo.specs.Log.{number_bytes, range_bytes, log_bytes};
ghost use Rattle.pmem_undo.specs.Settled.{OnlyLooks, reads};
ghost use Rattle.pmem_undo.specs.Spans.{spans_length, old_span, old_spans};

use crate::span::Span;
use base_outside::Failed;
use base_outside::region::Region;
use byteorder::{BigEndian, ByteOrder};

// A number as four bytes, the highest first.
#[tactic(auto, unfolding(crate::specs::Log::number_bytes))]
fn four_bytes(n: u32) -> [u8; 4]
    ensures { result ≡ number_bytes n }
{
    let mut four = [0; 4];
    BigEndian::write_u32(&mut four, n);
    four
}

// Writes a number into a body that is filled up to `at`.
fn put_number(body: &mut [u8], at: usize, n: u32)
    requires { at + 4 ≤ length body.old }
    ensures { take (at + 4) body.new ≡ take at body.old ++ number_bytes n }
{
    let end = at + 4;
    body[at..end].copy_from_slice(&four_bytes(n));
}

// Reads the bytes of a region into a body that is filled up to `at`.
fn put_bytes<R: Region>(
    region: &mut R,
    place: u64,
    body: &mut [u8],
    at: usize,
    count: usize,
) -> Result<(), Failed>
    requires room { at + count ≤ length body.old }
    requires inside { place + count ≤ R.extent region.old }
    ensures extent { R.extent region.new ≡ R.extent region.old }
    ensures cause { HasEitherCause (R.count region.old) (R.count region.new) (R.burns region.old) (R.burns region.new) result }
    ensures looks { IsTrue R.tells → OnlyLooks (R.image region.old) (R.image region.new) (R.may_leave region.old) (R.may_leave region.new)
        (R.moment region.old) (R.moment region.new) (R.left_since region.old) (R.left_since region.new) }
    ensures bytes { OnOk result (IsTrue R.tells → take (at + count) body.new ≡ take at body.old ++ bytes_at (R.image region.old) place count) }
    ensures call { OnOk result (R.did region.old Read region.new) }
{
    let end = at + count;
    region.read(place, &mut body[at..end])
}

// Puts a range with its old bytes into a body that is filled up to `at`, and says how far it is
// filled then.
fn put_range<R: Region>(
    region: &mut R,
    span: Span,
    body: &mut [u8],
    at: usize,
) -> Result<usize, Failed>
    requires room { at + (8 + span.length) ≤ length body.old }
    requires inside { span.place + span.length ≤ R.extent region.old }
    requires small { R.extent region.old < 2 ^ 32 }
    ensures extent { R.extent region.new ≡ R.extent region.old }
    ensures cause { HasEitherCause (R.count region.old) (R.count region.new) (R.burns region.old) (R.burns region.new) result }
    ensures looks { IsTrue R.tells → OnlyLooks (R.image region.old) (R.image region.new) (R.may_leave region.old) (R.may_leave region.new)
        (R.moment region.old) (R.moment region.new) (R.left_since region.old) (R.left_since region.new) }
    ensures end { IfOk result (λ end. end ≡ at + (8 + span.length)) }
    ensures bytes { IfOk result (λ end. IsTrue R.tells → take end body.new ≡ take at body.old ++ range_bytes (old_span (R.image region.old) span)) }
    ensures call { OnOk result (R.did region.old Read region.new) }
{
    put_number(body, at, span.place as u32);
    put_number(body, at + 4, span.length as u32);
    put_bytes(region, span.place, body, at + 8, span.length)?;
    Ok(at + 8 + span.length)
}

/// Makes the log body of the ranges of these spans, whose bytes are `total` together, and says how
/// long it is.
pub(crate) fn put_log<R: Region>(
    region: &mut R,
    spans: &[Span],
    total: usize,
    body: &mut [u8],
) -> Result<usize, Failed>
    requires room { 8 + 8 * length spans.now + total ≤ length body.old }
    requires few { length spans.now < 2 ^ 20 }
    requires total { total ≡ spans_length spans.now }
    requires short { total < 2 ^ 20 }
    requires inside { All (λ span. span.place + span.length ≤ R.extent region.old) spans.now }
    requires small { R.extent region.old < 2 ^ 32 }
    ensures extent { R.extent region.new ≡ R.extent region.old }
    ensures cause { HasEitherCause (R.count region.old) (R.count region.new) (R.burns region.old) (R.burns region.new) result }
    ensures looks { IsTrue R.tells → OnlyLooks (R.image region.old) (R.image region.new) (R.may_leave region.old) (R.may_leave region.new)
        (R.moment region.old) (R.moment region.new) (R.left_since region.old) (R.left_since region.new) }
    ensures end { IfOk result (λ end. end ≡ 8 + 8 * length spans.now + total) }
    ensures bytes { IfOk result (λ end. IsTrue R.tells → take end body.new ≡ log_bytes (old_spans (R.image region.old) spans.now)) }
    ensures calls { OnOk result (Runs R.did (reads (length spans.now)) region.old region.new) }
{
    put_number(body, 0, spans.len() as u32);
    put_number(body, 4, (8 * spans.len() + total) as u32);
    let mut at = 8;
    for span in spans {
        at = put_range(region, *span, body, at)?;
    }
    Ok(at)
}
