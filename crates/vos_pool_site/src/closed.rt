// A pool whose region isn't open.
ghost use Rattle.vos_pool_site.specs.Closed.{IsClosed};

use base_outside::region::Region;
use base_types::epoch::{Epoch, TargetId};
use base_types::outcome::FloorWhy;

/// A pool whose region isn't open: with the blocks that are free at least in whatever may be left of it, and the floor of
/// its last opening.
#[derive(Drop)]
pub struct Closed<R: Region> {
    pub region: R,
    pub free: u32,
    pub floor: Epoch,
    pub why: FloorWhy,
    pub target: TargetId,
    pub targets: u8,
    ghost closed: { ∥ IsClosed R.tells R.extent R.may_leave region free target targets ∥₁ },
}
