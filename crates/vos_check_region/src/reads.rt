// Reads of a region.
ghost use Rattle.std.specs.Prelude.{◌≡◌, ◌+◌, ◌<◌, ◌≤◌, OnOk, IfOk, IsTrue};
ghost use Rattle.base_outside.specs.Causes.{HasEitherCause};
ghost use Rattle.base_outside.specs.Images.{bytes_at};
ghost use Rattle.pmem_undo.specs.Log.{number_in};
ghost use Rattle.pmem_undo.specs.Settled.{OnlyLooks};

use base_outside::Failed;
use base_outside::region::Region;
use byteorder::{BigEndian, ByteOrder};

/// The byte at a place.
#[tactic(auto, unfolding(base_outside::specs::Images::bytes_at))]
pub(crate) fn byte_at<R: Region>(region: &mut R, at: u64) -> Result<u8, Failed>
    requires { at < R.extent region.old }
    ensures byte { IfOk result (λ byte. IsTrue R.tells → byte ≡ R.image region.old at) }
    ensures extent { R.extent region.new ≡ R.extent region.old }
    ensures cause { HasEitherCause (R.count region.old) (R.count region.new) (R.burns region.old) (R.burns region.new) result }
    ensures looks { IsTrue R.tells → OnlyLooks (R.image region.old) (R.image region.new) (R.may_leave region.old) (R.may_leave region.new)
        (R.moment region.old) (R.moment region.new) (R.left_since region.old) (R.left_since region.new) }
{
    let mut byte = [0; 1];
    region.read(at, &mut byte)?;
    Ok(byte[0])
}

/// The number in the four bytes from a place on.
#[tactic(auto, unfolding(pmem_undo::specs::Log::number_in))]
pub(crate) fn number_at<R: Region>(region: &mut R, at: u64) -> Result<u32, Failed>
    requires { at + 4 ≤ R.extent region.old }
    ensures number { IfOk result (λ n. IsTrue R.tells → n ≡ number_in (bytes_at (R.image region.old) at 4)) }
    ensures extent { R.extent region.new ≡ R.extent region.old }
    ensures cause { HasEitherCause (R.count region.old) (R.count region.new) (R.burns region.old) (R.burns region.new) result }
    ensures looks { IsTrue R.tells → OnlyLooks (R.image region.old) (R.image region.new) (R.may_leave region.old) (R.may_leave region.new)
        (R.moment region.old) (R.moment region.new) (R.left_since region.old) (R.left_since region.new) }
{
    let mut four = [0; 4];
    region.read(at, &mut four)?;
    Ok(BigEndian::read_u32(&four))
}
