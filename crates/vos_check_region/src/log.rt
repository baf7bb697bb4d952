// Whether the log of a region is well formed.
ghost use Rattle.std.specs.Prelude.{◌≡◌, ◌+◌, ◌<◌, ◌≤◌, IfErr, IfOk, IfSome, IsTrue, OnOk, length};
ghost use Rattle.std.specs.Option.{unwrap_or};
ghost use Rattle.base_outside.specs.Images.{bytes_at};
ghost use Rattle.pmem_undo.specs.Settled.{IsAttachable, OnlyLooks};
ghost use Rattle.vos_check_base.specs.Health.{is_stopped, says_stopped};
ghost use Rattle.vos_check_region.specs.Fault.{IsCaused, IsUnshown, Shows, TellsFault, log_fault, magic_fault, raw_fault};

use crate::magic::magic_fault;
use crate::ranges::ranges_fault;
use crate::reads::{byte_at, number_at};
use base_outside::region::Region;
use std::alloc::Global;
use vos_check_base::refusal::CheckNo;

// Where the gate byte stands, and where the log body begins.
const GATE: u64 = 32768;

const LOG: u64 = 36864;

// The most ranges of a log, and the most bytes of them together.
const MOST_RANGES: u32 = 1024;

const MOST_BYTES: u32 = 256000;

// So many bytes of the log behind its two numbers.
fn body<R: Region>(alloc: Global, region: &mut R, long: usize) -> Result<Vec<u8>, CheckNo>
    requires { 36872 + long ≤ R.extent region.old }
    ensures bytes { IfOk result (λ body. IsTrue R.tells → body.items ≡ bytes_at (R.image region.old) 36872 long) }
    ensures long { IfOk result (λ body. length body.items ≡ long) }
    ensures unshown { IfErr result IsUnshown }
    ensures extent { R.extent region.new ≡ R.extent region.old }
    ensures stops { IsCaused (R.count region.old) (R.count region.new) (R.burns region.old) (R.burns region.new) (says_stopped result) }
    ensures looks { IsTrue R.tells → OnlyLooks (R.image region.old) (R.image region.new) (R.may_leave region.old) (R.may_leave region.new)
        (R.moment region.old) (R.moment region.new) (R.left_since region.old) (R.left_since region.new) }
{
    let mut body = vec![in alloc; 0u8; long]?;
    region.read(LOG + 8, &mut body)?;
    Ok(body)
}

// The place of the first field of the log that breaks a rule.
fn log_fault<R: Region>(alloc: Global, region: &mut R) -> Result<Option<u64>, CheckNo>
    requires big { 323584 ≤ R.extent region.old }
    ensures told { IfOk result (λ fault. IsTrue R.tells → fault ≡ log_fault (R.extent region.old) (R.image region.old)) }
    ensures low { IfOk result (λ fault. IfSome fault (λ at. at < 323584)) }
    ensures unshown { IfErr result IsUnshown }
    ensures extent { R.extent region.new ≡ R.extent region.old }
    ensures stops { IsCaused (R.count region.old) (R.count region.new) (R.burns region.old) (R.burns region.new) (says_stopped result) }
    ensures looks { IsTrue R.tells → OnlyLooks (R.image region.old) (R.image region.new) (R.may_leave region.old) (R.may_leave region.new)
        (R.moment region.old) (R.moment region.new) (R.left_since region.old) (R.left_since region.new) }
{
    let count = number_at(region, LOG)?;
    if count > MOST_RANGES {
        return Ok(Some(LOG));
    }
    let long = number_at(region, LOG + 4)?;
    if long > 8 * count + MOST_BYTES {
        return Ok(Some(LOG + 4));
    }
    let body = body(alloc, region, long as usize)?;
    Ok(ranges_fault(region.size(), count, &body))
}

// The fault of the byte at a place, which is read to be shown.
fn blame<R: Region>(region: &mut R, at: u64) -> CheckNo
    requires { at < R.extent region.old }
    ensures told { IsTrue R.tells → Shows at (R.image region.old) result }
    ensures extent { R.extent region.new ≡ R.extent region.old }
    ensures stops { IsCaused (R.count region.old) (R.count region.new) (R.burns region.old) (R.burns region.new) (is_stopped result) }
    ensures looks { IsTrue R.tells → OnlyLooks (R.image region.old) (R.image region.new) (R.may_leave region.old) (R.may_leave region.new)
        (R.moment region.old) (R.moment region.new) (R.left_since region.old) (R.left_since region.new) }
{
    match byte_at(region, at) {
        Ok(byte) => CheckNo::Foreign { at, byte },
        Err(failed) => failed.into(),
    }
}

// The fault of the first of the first eight bytes that isn't a pool's, and else of the byte at a place.
fn first_blame<R: Region>(region: &mut R, at: u64) -> CheckNo
    requires big { 8 ≤ R.extent region.old }
    requires inside { at < R.extent region.old }
    ensures told { IsTrue R.tells → Shows (unwrap_or (magic_fault (R.image region.old)) at) (R.image region.old) result }
    ensures extent { R.extent region.new ≡ R.extent region.old }
    ensures stops { IsCaused (R.count region.old) (R.count region.new) (R.burns region.old) (R.burns region.new) (is_stopped result) }
    ensures looks { IsTrue R.tells → OnlyLooks (R.image region.old) (R.image region.new) (R.may_leave region.old) (R.may_leave region.new)
        (R.moment region.old) (R.moment region.new) (R.left_since region.old) (R.left_since region.new) }
{
    match magic_fault(region) {
        Ok(first) => blame(region, first.unwrap_or(at)),
        Err(failed) => failed.into(),
    }
}

/// Checks the log of a region whose gate is open, before anything is written: at most 1,024 ranges of at
/// most 256,000 bytes together, as long as it says, each inside the region and outside the gate byte and the
/// log body.
///
/// # Errors
///
/// `Foreign` comes exactly where the log isn't well formed, as far as no read failed and memory was there:
/// with the first of the first eight bytes that isn't a pool's, and else with the first field of the log that
/// breaks a rule. `Stopped` comes only where a count rose in this call.
pub fn check_log<R: Region>(alloc: Global, region: &mut R) -> Result<(), CheckNo>
    requires big { 323584 ≤ R.extent region.old }
    ensures told { IsTrue R.tells → TellsFault (raw_fault (R.extent region.old) (R.image region.old)) (R.image region.old) result }
    ensures attachable { OnOk result (IsTrue R.tells → IsAttachable (R.extent region.new) (R.image region.new)) }
    ensures extent { R.extent region.new ≡ R.extent region.old }
    ensures stops { IsCaused (R.count region.old) (R.count region.new) (R.burns region.old) (R.burns region.new) (says_stopped result) }
    ensures looks { IsTrue R.tells → OnlyLooks (R.image region.old) (R.image region.new) (R.may_leave region.old) (R.may_leave region.new)
        (R.moment region.old) (R.moment region.new) (R.left_since region.old) (R.left_since region.new) }
{
    let gate = byte_at(region, GATE)?;
    if gate == 0 {
        return Ok(());
    }
    match log_fault(alloc, region)? {
        Some(at) => Err(first_blame(region, at)),
        None => Ok(()),
    }
}
