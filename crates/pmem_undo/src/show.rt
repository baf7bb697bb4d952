// Staged bytes over those that were read.
ghost use Rattle.std.specs.Prelude.{◌≡◌, ℕ, ◌+◌, ◌^◌, ◌<◌, ◌≤◌, ◌++◌, length, take, drop, All};
ghost use Rattle.base_outside.specs.Images.{Image, over, all_over, bytes_at};
ghost use Rattle.pmem_undo.specs.Spans.{IsSpan, ranges_of};

use crate::span::Span;

// Writes some bytes over those from a place on.
fn put(all: &mut [u8], at: usize, bytes: &[u8])
    requires { at + length bytes.now ≤ length all.old }
    ensures { all.new ≡ take at all.old ++ bytes.now ++ drop (at + length bytes.now) all.old }
{
    let end = at + bytes.len();
    all[at..end].copy_from_slice(bytes);
}

// Lays the bytes of a range over those of a region from `at` on.
fn lay(buf: &mut [u8], at: u64, place: u64, bytes: &[u8])
    requires low { at + length buf.old < 2 ^ 64 }
    requires high { place + length bytes.now < 2 ^ 64 }
    ensures { (f : Image) → buf.old ≡ bytes_at f at (length buf.old) →
        buf.new ≡ bytes_at (over (record { place = place; bytes = bytes.now }) f) at (length buf.old) }
{
    let first = at.max(place);
    let end = (at + buf.len() as u64).min(place + bytes.len() as u64);
    if first < end {
        let part = &bytes[(first - place) as usize..(end - place) as usize];
        put(buf, (first - at) as usize, part);
    }
}

/// Lays the ranges of these spans of a buffer over the bytes of a region from `at` on, the first of
/// them first.
pub(crate) fn show(spans: &[Span], buffer: &[u8], size: u64, at: u64, buf: &mut [u8])
    requires spans { All (IsSpan size (length buffer.now)) spans.now }
    requires small { size < 2 ^ 32 }
    requires inside { at + length buf.old ≤ size }
    ensures { (f : Image) → buf.old ≡ bytes_at f at (length buf.old) →
        buf.new ≡ bytes_at (all_over (ranges_of buffer.now spans.now) f) at (length buf.old) }
{
    for span in spans {
        lay(
            buf,
            at,
            span.place,
            &buffer[span.start..span.start + span.length],
        );
    }
}
