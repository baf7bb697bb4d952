// The first eight bytes of a region.
ghost use Rattle.std.specs.Prelude.{◌≡◌, ◌<◌, ◌≤◌, IfOk, IfSome, IsTrue, length};
ghost use Rattle.base_outside.specs.Causes.{HasEitherCause};
ghost use Rattle.base_outside.specs.Images.{Image, bytes_at};
ghost use Rattle.pmem_undo.specs.Settled.{OnlyLooks};
ghost use Rattle.vos_check_region.specs.Fault.{magic_fault};

use base_outside::Failed;
use base_outside::region::Region;

// DAOSVOS1
const MAGIC: [u8; 8] = [68, 65, 79, 83, 86, 79, 83, 49];

// The place of the first of eight bytes that isn't the one there.
fn first_other(bytes: &[u8; 8]) -> Option<u64>
    ensures told { (f : Image) → bytes.now ≡ bytes_at f 0 8 → result ≡ magic_fault f }
    ensures low { IfSome result (λ at. at < 8) }
{
    for i in 0..8 {
        if bytes[i] != MAGIC[i] {
            return Some(i as u64);
        }
    }
    None
}

/// The place of the first of the first eight bytes that isn't a pool's.
pub(crate) fn magic_fault<R: Region>(region: &mut R) -> Result<Option<u64>, Failed>
    requires { 8 ≤ R.extent region.old }
    ensures told { IfOk result (λ fault. IsTrue R.tells → fault ≡ magic_fault (R.image region.old)) }
    ensures low { IfOk result (λ fault. IfSome fault (λ at. at < 8)) }
    ensures extent { R.extent region.new ≡ R.extent region.old }
    ensures cause { HasEitherCause (R.count region.old) (R.count region.new) (R.burns region.old) (R.burns region.new) result }
    ensures looks { IsTrue R.tells → OnlyLooks (R.image region.old) (R.image region.new) (R.may_leave region.old) (R.may_leave region.new)
        (R.moment region.old) (R.moment region.new) (R.left_since region.old) (R.left_since region.new) }
{
    let mut bytes = [0; 8];
    region.read(0, &mut bytes)?;
    Ok(first_other(&bytes))
}
