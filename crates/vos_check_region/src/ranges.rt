// The ranges of a log.
ghost use Rattle.std.specs.Prelude.{◌≡◌, ◌+◌, ◌<◌, ◌≤◌, ◌^◌, IfErr, IfOk, IfSome, length, drop};
ghost use Rattle.pmem_undo.specs.Layout.{are_content};
ghost use Rattle.pmem_undo.specs.Log.{number_in};
ghost use Rattle.vos_check_region.specs.Fault.{next_range, ranges_fault};

use byteorder::{BigEndian, ByteOrder};

// Where the gate byte stands, the log body begins, and the content behind it.
const GATE: u64 = 32768;

const LOG: u64 = 36864;

const LOG_END: u64 = 307200;

// The number in the four bytes from `at` on.
#[tactic(auto, unfolding(pmem_undo::specs::Log::number_in))]
fn number(bytes: &[u8], at: usize) -> u32
    requires { at + 4 ≤ length bytes.now }
    ensures { result ≡ number_in (drop at bytes.now) }
{
    BigEndian::read_u32(&bytes[at..])
}

// Whether a range lies inside a region, outside the gate byte and the log body.
fn is_content(size: u64, place: u64, length: u64) -> bool
    requires { place + length < 2 ^ 64 }
    ensures { result ≡ are_content size place length }
{
    let end = place + length;
    end <= size && (end <= GATE || (GATE < place && end <= LOG) || LOG_END <= place)
}

// How long the range is that is told from `at` on, or the place of the field at fault.
fn next_range(size: u64, bytes: &[u8], at: usize) -> Result<usize, u64>
    requires small { length bytes.now < 2 ^ 32 }
    requires inside { at ≤ length bytes.now }
    ensures told { result ≡ next_range size (36872 + at) (drop at bytes.now) }
    ensures fits { IfOk result (λ n. at + 8 + n ≤ length bytes.now) }
    ensures low { IfErr result (λ place. place < 36872 + length bytes.now + 1) }
{
    if bytes.len() - at < 8 {
        return Err(LOG + 4);
    }
    let place = u64::from(number(bytes, at));
    let long = number(bytes, at + 4) as usize;
    if !is_content(size, place, 0) {
        return Err(LOG + 8 + at as u64);
    }
    if long > bytes.len() - (at + 8) {
        return Err(LOG + 8 + at as u64 + 4);
    }
    if !is_content(size, place, long as u64) {
        return Err(LOG + 8 + at as u64 + 4);
    }
    Ok(long)
}

/// The place of the first field at fault of so many ranges, which are all that the bytes tell.
pub(crate) fn ranges_fault(size: u64, count: u32, bytes: &[u8]) -> Option<u64>
    requires { length bytes.now < 2 ^ 32 }
    ensures told { result ≡ ranges_fault size count 36872 bytes.now }
    ensures low { IfSome result (λ place. place < 36872 + length bytes.now + 1) }
{
    let mut at = 0;
    for _range in 0..count {
        match next_range(size, bytes, at) {
            Ok(long) => at += 8 + long,
            Err(place) => return Some(place),
        }
    }
    if at < bytes.len() {
        return Some(LOG + 4);
    }
    None
}
