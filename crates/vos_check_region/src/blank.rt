// Whether a region is blank.
ghost use Rattle.std.specs.Prelude.{◌≡◌, ◌↔◌, ◌+◌, ◌≤◌, IfOk, IsTrue};
ghost use Rattle.std.specs.List.{list_all};
ghost use Rattle.base_outside.specs.Causes.{HasEitherCause};
ghost use Rattle.base_outside.specs.Images.{bytes_at};
ghost use Rattle.pmem_undo.specs.Settled.{OnlyLooks};
ghost use Rattle.vos_check_region.specs.Blank.{IsBlank, is_zero};

use base_outside::Failed;
use base_outside::region::Region;

// How many bytes are looked at at once.
const PIECE: usize = 16384;

// Whether all bytes are zero.
fn are_zeros(bytes: &[u8]) -> bool
    ensures { result ≡ list_all is_zero bytes.now }
{
    bytes.iter().all(|byte| *byte == 0)
}

// Whether so many bytes from a place on are zero.
fn are_zeros_at<R: Region>(region: &mut R, at: u64, length: usize) -> Result<bool, Failed>
    requires piece { length ≤ 16384 }
    requires inside { at + length ≤ R.extent region.old }
    ensures zeros { IfOk result (λ t. IsTrue R.tells → t ≡ list_all is_zero (bytes_at (R.image region.old) at length)) }
    ensures extent { R.extent region.new ≡ R.extent region.old }
    ensures cause { HasEitherCause (R.count region.old) (R.count region.new) (R.burns region.old) (R.burns region.new) result }
    ensures looks { IsTrue R.tells → OnlyLooks (R.image region.old) (R.image region.new) (R.may_leave region.old) (R.may_leave region.new)
        (R.moment region.old) (R.moment region.new) (R.left_since region.old) (R.left_since region.new) }
{
    let mut bytes = [0; PIECE];
    let part = &mut bytes[..length];
    region.read(at, part)?;
    Ok(are_zeros(part))
}

/// Whether all bytes of a region are zero. It looks at 16 KiB at a time, and no further than the first
/// piece with another byte.
///
/// # Errors
///
/// `Failed` comes only where a count rose in this call.
pub fn is_blank<R: Region>(region: &mut R) -> Result<bool, Failed>
    ensures blank { IfOk result (λ t. IsTrue R.tells → (IsTrue t ↔ IsBlank (R.extent region.old) (R.image region.old))) }
    ensures extent { R.extent region.new ≡ R.extent region.old }
    ensures cause { HasEitherCause (R.count region.old) (R.count region.new) (R.burns region.old) (R.burns region.new) result }
    ensures looks { IsTrue R.tells → OnlyLooks (R.image region.old) (R.image region.new) (R.may_leave region.old) (R.may_leave region.new)
        (R.moment region.old) (R.moment region.new) (R.left_since region.old) (R.left_since region.new) }
{
    let size = region.size();
    for piece in 0..size.div_ceil(PIECE as u64) {
        let at = piece * PIECE as u64;
        let length = (size - at).min(PIECE as u64) as usize;
        let is_blank = are_zeros_at(region, at, length)?;
        if !is_blank {
            return Ok(false);
        }
    }
    Ok(true)
}
