// The numbers that stand for entities.
ghost use Rattle.std.specs.Prelude.{◌≡◌};
ghost use Rattle.base_types.specs.Paths.{cut_at};
ghost use Rattle.vos_stamp.specs.Entities.{entity};

use base_types::path::{Level, Path};
use base_types::tag::tag_at;

/// The slots of a level, which entities share that have no marks of their own.
pub(crate) const SLOTS: u64 = 4096;

/// The number that stands for the entity at a level of a path: its last twelve bits are its slot.
pub(crate) fn entity_at(path: &Path, level: Level) -> u64
    ensures { result ≡ entity (cut_at level path.now) }
{
    tag_at(path, level) / SLOTS * SLOTS + u64::from(path.slot_at(level))
}
