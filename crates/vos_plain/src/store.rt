// A store over lists.
ghost use Rattle.std.specs.Prelude.{◌+◌, ◌*◌, ◌≤◌};

use crate::counted::Counted;
use crate::stop_plan::StopPlan;
use base_types::epoch::Epoch;
use base_types::outcome::FloorWhy;

/// A store over lists in memory, made for 64 targets. It stops at the changes that a plan or a fuse
/// says.
#[derive(Drop)]
pub struct PlainStore {
    pub(crate) contents: Counted,
    pub(crate) stops: StopPlan,
    pub(crate) floor: Epoch,
    pub(crate) why: FloorWhy,
    ghost covered: { floor.0 ≤ contents.kept.lease * 256 + 255 },
}
