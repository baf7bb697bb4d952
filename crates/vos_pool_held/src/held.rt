// A pool that is open, with what it keeps in memory.
ghost use Rattle.vos_contents.specs.Contents.{contents_of};
ghost use Rattle.vos_pool_held.specs.Held.{IsHeld};

use base_outside::region::Region;
use base_types::epoch::{Epoch, TargetId};
use base_types::outcome::FloorWhy;
use vos_contents::contents::Contents;
use vos_pool_base::opened::Opened;

/// A pool that is open, with what it keeps in memory. The blocks are those that are free, or, where it stopped, no more than
/// whatever may be left of it has free. The floor is that of its opening, with what set it.
#[derive(Drop)]
pub struct Held<R: Region> {
    pub opened: Opened<R>,
    pub contents: Contents,
    pub free: u32,
    pub floor: Epoch,
    pub why: FloorWhy,
    pub target: TargetId,
    pub targets: u8,
    ghost held: { ∥ IsHeld R.tells R.extent R.image R.may_leave opened (contents_of contents) free floor.0 target targets ∥₁ },
}
