// The log is read, and its old bytes are written back.
ghost use Rattle.std.specs.Prelude.{◌≡◌, ◌≢◌, ◌↔◌, ℕ, ◌+◌, ◌*◌, ◌^◌, ◌<◌, ◌≤◌, List, [], ◌∷◌, ◌++◌, length, drop, All, OnOk, IfOk, IfSome, IfNone, IsTrue, IsFalse, Some, None, vec_len, vec_capacity, if◌then◌else◌};
ghost use Rattle.base_outside.specs.Causes.{HasEitherCause};
ghost use Rattle.base_outside.specs.Images.{Image, Range, bytes_at, Only, Tears, Torn, LeavesOnly, Runs};
ghost use Rattle.base_outside.specs.Images.Call.{Read, Write, Flush};
ghost use Rattle.pmem_undo.specs.Layout.{gate, gate_byte, IsContent, are_content};
ghost use Rattle.pmem_undo.specs.Log.{number_in, ranges_in, cons_range, is_log_size, logged, log_in};
ghost use Rattle.pmem_undo.specs.Settled.{OnlyLooks, IsAtRest, IsAttachable, IsLogged, IsUndoneBy, StandsFor, reads, rolled, settled, undo_calls, writes_back};
ghost use Rattle.pmem_undo.specs.Spans.{IsSpan, range_of, ranges_of, spans_length};

use crate::span::Span;
use crate::{GATE, LOG, LOG_END};
use base_outside::Failed;
use base_outside::region::Region;
use byteorder::{BigEndian, ByteOrder};

// The number in the first four bytes.
#[tactic(auto, unfolding(crate::specs::Log::number_in))]
fn number(bytes: &[u8]) -> u32
    requires { 4 ≤ length bytes.now }
    ensures { result ≡ number_in bytes.now }
{
    BigEndian::read_u32(bytes)
}

// The number in the four bytes from `at` on.
fn number_at(bytes: &[u8], at: usize) -> u32
    requires { at + 4 ≤ length bytes.now }
    ensures { result ≡ number_in (drop at bytes.now) }
{
    number(&bytes[at..])
}

// Whether a range lies inside a region, outside the gate byte and the log body.
fn lies_in_content(size: u64, place: u64, length: u64) -> bool
    requires { place + length < 2 ^ 64 }
    ensures { result ≡ are_content size place length }
{
    let end = place + length;
    end <= size && (end <= GATE || (GATE < place && end <= LOG) || LOG_END <= place)
}

// The range that is told from `at` on, where one is told and is content.
fn next_span(size: u64, bytes: &[u8], at: usize) -> Option<Span>
    requires { at ≤ length bytes.now }
    ensures sound { IfSome result (λ span. IsSpan size (length bytes.now) span) }
    ensures behind { IfSome result (λ span. span.start ≡ at + 8) }
    ensures told { IfSome result (λ span. (n : ℕ) → ranges_in size (n + 1) (drop at bytes.now) ≡
        cons_range (range_of bytes.now span) (ranges_in size n (drop (span.start + span.length) bytes.now))) }
    ensures none { IfNone result ((n : ℕ) → ranges_in size (n + 1) (drop at bytes.now) ≡ None) }
{
    if bytes.len() - at < 8 {
        return None;
    }
    let place = u64::from(number_at(bytes, at));
    let length = number_at(bytes, at + 4) as usize;
    if length > bytes.len() - (at + 8) {
        return None;
    }
    if !lies_in_content(size, place, length as u64) {
        return None;
    }
    Some(Span {
        place,
        start: at + 8,
        length,
    })
}

// The spans of so many ranges that the bytes tell, and whether that is all that they tell.
fn parse(size: u64, count: u32, bytes: &[u8], spans: &mut Vec<Span>) -> bool
    requires empty { spans.old.items ≡ [] }
    requires room { count ≤ vec_capacity spans.old }
    ensures sound { All (IsSpan size (length bytes.now)) spans.new.items }
    ensures told { IsTrue result → ranges_in size count bytes.now ≡ Some (ranges_of bytes.now spans.new.items) }
    ensures none { IsFalse result → ranges_in size count bytes.now ≡ None }
    ensures room_left { vec_capacity spans.old ≤ vec_capacity spans.new }
    ensures few { vec_len spans.new ≤ count }
    ensures whole { IsTrue result → length spans.new.items ≡ count }
    ensures short { IsTrue result → 8 * length spans.new.items + spans_length spans.new.items ≡ length bytes.now }
{
    let mut at = 0;
    for _range in 0..count {
        match next_span(size, bytes, at) {
            Some(span) => {
                at = span.start + span.length;
                spans.push(span).unwrap();
            }
            None => return false,
        }
    }
    at == bytes.len()
}

// Whether a log may have so many ranges in so many bytes.
fn is_log_size(count: u32, total: u32) -> bool
    ensures { result ≡ is_log_size count total }
{
    count <= 1024 && u64::from(total) <= 8 * u64::from(count) + 256000
}

// The number in the four bytes of a region from a place on.
fn read_number<R: Region>(region: &mut R, place: u64) -> Result<u32, Failed>
    requires { place + 4 ≤ R.extent region.old }
    ensures extent { R.extent region.new ≡ R.extent region.old }
    ensures cause { HasEitherCause (R.count region.old) (R.count region.new) (R.burns region.old) (R.burns region.new) result }
    ensures looks { IsTrue R.tells → OnlyLooks (R.image region.old) (R.image region.new) (R.may_leave region.old) (R.may_leave region.new)
        (R.moment region.old) (R.moment region.new) (R.left_since region.old) (R.left_since region.new) }
    ensures number { IfOk result (λ n. IsTrue R.tells → n ≡ number_in (bytes_at (R.image region.old) place 4)) }
    ensures call { OnOk result (R.did region.old Read region.new) }
{
    let mut four = [0; 4];
    region.read(place, &mut four)?;
    Ok(number(&four))
}

/// Reads the log of a region: the spans of a body, none where the log isn't well formed.
fn read_log<R: Region>(region: &mut R, spans: &mut Vec<Span>, body: &mut [u8]) -> Result<(), Failed>
    requires place { 307200 ≤ R.extent region.old }
    requires room { 264192 ≤ length body.old }
    requires spans { 1024 ≤ vec_capacity spans.old }
    ensures extent { R.extent region.new ≡ R.extent region.old }
    ensures cause { HasEitherCause (R.count region.old) (R.count region.new) (R.burns region.old) (R.burns region.new) result }
    ensures looks { IsTrue R.tells → OnlyLooks (R.image region.old) (R.image region.new) (R.may_leave region.old) (R.may_leave region.new)
        (R.moment region.old) (R.moment region.new) (R.left_since region.old) (R.left_since region.new) }
    ensures sound { All (IsSpan (R.extent region.old) (length body.new)) spans.new.items }
    ensures told { OnOk result (IsTrue R.tells → ranges_of body.new spans.new.items ≡ logged (log_in (R.extent region.old) (R.image region.old))) }
    ensures room_left { 1024 ≤ vec_capacity spans.new }
    ensures few { OnOk result (length spans.new.items ≤ 1024) }
    ensures short { OnOk result (spans_length spans.new.items ≤ 256000) }
    ensures calls { OnOk result ((looks : ℕ) × Runs R.did (reads looks) region.old region.new) }
{
    spans.clear();
    let count = read_number(region, LOG)?;
    let total = read_number(region, LOG + 4)?;
    if !is_log_size(count, total) {
        return Ok(());
    }
    let part = &mut body[..total as usize];
    region.read(LOG + 8, part)?;
    if !parse(region.size(), count, part, spans) {
        spans.clear();
    }
    Ok(())
}

/// Writes the ranges of these spans of a buffer, the last of them first.
fn write_back<R: Region>(region: &mut R, spans: &[Span], buffer: &[u8]) -> Result<(), Failed>
    requires { All (IsSpan (R.extent region.old) (length buffer.now)) spans.now }
    ensures extent { R.extent region.new ≡ R.extent region.old }
    ensures cause { HasEitherCause (R.count region.old) (R.count region.new) (R.burns region.old) (R.burns region.new) result }
    ensures image { OnOk result (IsTrue R.tells → R.image region.new ≡ rolled (ranges_of buffer.now spans.now) (R.image region.old)) }
    ensures crash { IsTrue R.tells → Tears (ranges_of buffer.now spans.now) (R.may_leave region.old) (R.may_leave region.new) }
    ensures time { IsTrue R.tells → LeavesOnly (R.moment region.old) (R.moment region.new) (R.left_since region.old) (R.left_since region.new)
        (λ c. (d : Image) × (R.may_leave region.old d × Torn (ranges_of buffer.now spans.now) d c)) }
    ensures calls { OnOk result (Runs R.did (writes_back (ranges_of buffer.now spans.now)) region.old region.new) }
{
    let mut left = spans.len();
    while left > 0 {
        left -= 1;
        let span = spans[left];
        region.write(span.place, &buffer[span.start..span.start + span.length])?;
    }
    Ok(())
}

/// Writes the ranges of these spans of a body back, and closes the gate.
fn roll_back<R: Region>(region: &mut R, spans: &[Span], body: &[u8]) -> Result<(), Failed>
    requires room { 36864 ≤ R.extent region.old }
    requires spans { All (IsSpan (R.extent region.old) (length body.now)) spans.now }
    requires only { IsTrue R.tells → Only (R.image region.old) (R.may_leave region.old) }
    requires ajar { IsTrue R.tells → R.image region.old gate ≢ 0 }
    requires log { IsTrue R.tells → IsAttachable (R.extent region.old) (R.image region.old) }
    requires told { IsTrue R.tells → ranges_of body.now spans.now ≡ logged (log_in (R.extent region.old) (R.image region.old)) }
    ensures extent { R.extent region.new ≡ R.extent region.old }
    ensures cause { HasEitherCause (R.count region.old) (R.count region.new) (R.burns region.old) (R.burns region.new) result }
    ensures image { OnOk result (IsTrue R.tells → R.image region.new ≡ settled (R.extent region.old) (R.image region.old)) }
    ensures only { OnOk result (IsTrue R.tells → Only (R.image region.new) (R.may_leave region.new)) }
    ensures any_moment { IsTrue R.tells → LeavesOnly (R.moment region.old) (R.moment region.new) (R.left_since region.old) (R.left_since region.new)
        (StandsFor (R.extent region.old) (settled (R.extent region.old) (R.image region.old))) }
    ensures calls { OnOk result (Runs R.did (writes_back (ranges_of body.now spans.now) ++ Flush ∷ Write (gate_byte 0) ∷ Flush ∷ []) region.old region.new) }
{
    write_back(region, spans, body)?;
    region.flush()?;
    region.write(GATE, &[0])?;
    region.flush()
}

// The gate byte of a region.
fn gate_byte<R: Region>(region: &mut R) -> Result<u8, Failed>
    requires { 32769 ≤ R.extent region.old }
    ensures extent { R.extent region.new ≡ R.extent region.old }
    ensures cause { HasEitherCause (R.count region.old) (R.count region.new) (R.burns region.old) (R.burns region.new) result }
    ensures looks { IsTrue R.tells → OnlyLooks (R.image region.old) (R.image region.new) (R.may_leave region.old) (R.may_leave region.new)
        (R.moment region.old) (R.moment region.new) (R.left_since region.old) (R.left_since region.new) }
    ensures byte { IfOk result (λ byte. IsTrue R.tells → byte ≡ R.image region.old gate) }
    ensures call { OnOk result (R.did region.old Read region.new) }
{
    let mut byte = [0];
    region.read(GATE, &mut byte)?;
    Ok(byte[0])
}

// Reads the log, writes the old bytes back, and closes the gate.
fn undo<R: Region>(region: &mut R, spans: &mut Vec<Span>, body: &mut [u8]) -> Result<(), Failed>
    requires place { 307200 ≤ R.extent region.old }
    requires room { 264192 ≤ length body.old }
    requires spans { 1024 ≤ vec_capacity spans.old }
    requires only { IsTrue R.tells → Only (R.image region.old) (R.may_leave region.old) }
    requires ajar { IsTrue R.tells → R.image region.old gate ≢ 0 }
    requires log { IsTrue R.tells → IsAttachable (R.extent region.old) (R.image region.old) }
    ensures extent { R.extent region.new ≡ R.extent region.old }
    ensures cause { HasEitherCause (R.count region.old) (R.count region.new) (R.burns region.old) (R.burns region.new) result }
    ensures image { OnOk result (IsTrue R.tells → R.image region.new ≡ settled (R.extent region.old) (R.image region.old)) }
    ensures only { OnOk result (IsTrue R.tells → Only (R.image region.new) (R.may_leave region.new)) }
    ensures any_moment { IsTrue R.tells → LeavesOnly (R.moment region.old) (R.moment region.new) (R.left_since region.old) (R.left_since region.new)
        (StandsFor (R.extent region.old) (settled (R.extent region.old) (R.image region.old))) }
    ensures room_left { 1024 ≤ vec_capacity spans.new }
    ensures calls { OnOk result ((looks : ℕ) × ((ranges : List Range) × (IsLogged (R.extent region.old) ranges × Runs R.did (undo_calls looks ranges) region.old region.new))) }
{
    read_log(region, spans, body)?;
    roll_back(region, spans, body)
}

/// Undoes what the log of a region tells, where its gate is open.
pub(crate) fn restore<R: Region>(
    region: &mut R,
    spans: &mut Vec<Span>,
    body: &mut [u8],
) -> Result<(), Failed>
    requires place { 307200 ≤ R.extent region.old }
    requires room { 264192 ≤ length body.old }
    requires spans { 1024 ≤ vec_capacity spans.old }
    requires only { IsTrue R.tells → Only (R.image region.old) (R.may_leave region.old) }
    requires log { IsTrue R.tells → IsAttachable (R.extent region.old) (R.image region.old) }
    ensures extent { R.extent region.new ≡ R.extent region.old }
    ensures cause { HasEitherCause (R.count region.old) (R.count region.new) (R.burns region.old) (R.burns region.new) result }
    ensures image { OnOk result (IsTrue R.tells → R.image region.new ≡ settled (R.extent region.old) (R.image region.old)) }
    ensures rest { OnOk result (IsTrue R.tells → IsAtRest (R.image region.new) (R.may_leave region.new)) }
    ensures any_moment { IsTrue R.tells → LeavesOnly (R.moment region.old) (R.moment region.new) (R.left_since region.old) (R.left_since region.new)
        (StandsFor (R.extent region.old) (settled (R.extent region.old) (R.image region.old))) }
    ensures left { IsTrue R.tells → (c : Image) → R.may_leave region.new c →
        StandsFor (R.extent region.old) (settled (R.extent region.old) (R.image region.old)) c }
    ensures room_left { 1024 ≤ vec_capacity spans.new }
    ensures calls { OnOk result (IsUndoneBy R.did (R.extent region.old) (Read ∷ []) region.old region.new) }
{
    let byte = gate_byte(region)?;
    if byte == 0 {
        return Ok(());
    }
    undo(region, spans, body)
}
