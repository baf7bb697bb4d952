// What stands in the content of a region where its blocks or its fixed places change.
ghost use Rattle.vos_places.specs.vos_entries.Entries.{entries_owner};
ghost use Rattle.vos_places.specs.vos_image.Kept.{stored_owner};
ghost use Rattle.vos_places.specs.vos_path.Objects.{objects_owner};
ghost use Rattle.vos_standing.specs.Laws.{ClosedItIsKept, BlocksAreShown, BlocksChange, ContentsStand, FitsStay, SameIsQuiet, StandsAfterBlocks, StandsAfterConts, StandsAfterCounters, StandsAfterSnaps, StandsBelowTheRoots, StandsWithoutSnaps, WhatStandsIsKept, WhatStandsStands};

/// What stands in an image is what is read of its content, and what that keeps.
pub fn what_stands_is_kept()
    ensures stands { WhatStandsStands }
    ensures kept { WhatStandsIsKept }
{}

/// What stands in the blocks of a content is shown to whoever changes blocks. After any calls that change blocks
/// alone the blocks of the content have changed so, and what stands beside them is as it was: the fixed places,
/// and the bits of the map for all that aren't blocks.
pub fn blocks_are_shown()
    ensures shown { BlocksAreShown stored_owner }
    ensures objects { BlocksChange objects_owner }
    ensures entries { BlocksChange entries_owner }
    ensures all { BlocksChange stored_owner }
{}

/// What stands after blocks changed, with the counters written or below the same roots; after the counters alone were
/// written; and after the place of a container or of a snapshot was written or given up. What the layout asks of what stands in blocks holds under a
/// greater lease too.
pub fn what_stands_changes()
    ensures blocks { StandsAfterBlocks }
    ensures below { StandsBelowTheRoots }
    ensures counters { StandsAfterCounters }
    ensures conts { StandsAfterConts }
    ensures snaps { StandsAfterSnaps }
    ensures unused { StandsWithoutSnaps }
    ensures fits { FitsStay }
{}

/// What stands goes by the content alone; a region whose gate is closed keeps it; and a commit with which what stands makes
/// the same as before is quiet.
pub fn what_is_committed_stands()
    ensures content { ContentsStand }
    ensures closed { ClosedItIsKept }
    ensures quiet { SameIsQuiet }
{}
