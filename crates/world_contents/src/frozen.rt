// Freezing a snapshot, creating one and pruning a container keep sound what a target keeps.

ghost use Rattle.world_contents.specs.frozen.Laws.{CreatesKeepSound, FreezesKeepSound, LimitsAreClear, PartsKeepSound, PrunesKeepSound};

/// Says what stays true of what one target keeps, where a snapshot is frozen or created there, and where a
/// container is pruned, whole or cut in part: its versions stand for the decided transactions, each of its
/// snapshots gives the map as of its epoch, and what it served stays guarded. A snapshot may be frozen where
/// the store admits it, at an epoch above the opening's that the lease covers. A container may be pruned up
/// to an epoch above what was aggregated of it and below all of it that isn't settled; so it is of the limit
/// that a target finds.
pub fn laws_of_contents()
    ensures freezes { FreezesKeepSound }
    ensures creates { CreatesKeepSound }
    ensures prunes { PrunesKeepSound }
    ensures parts { PartsKeepSound }
    ensures limits { LimitsAreClear }
{}
