// How many pairs a tree in a region has, and what follows for one write or one entry that is staged.
ghost use Rattle.vos_small.specs.Rooms.{ChangesFit, EntriesFitIn, EntriesFitOut, MarksFit, WritesFit};
ghost use Rattle.vos_small.specs.Small.{ContentsAreOfRegions, EntriesInRegionsAreSmall, MapsAreOfRegions, ObjectsInRegionsAreSmall, StoredInRegionsAreSmall, UnlistedTakeNone};

/// Trees that stand in the blocks of a region, of which there are fewer than 2^17, have fewer pairs than that; and an
/// entry that lists nothing has no list in blocks.
pub fn trees_are_small()
    ensures contents { ContentsAreOfRegions }
    ensures maps { MapsAreOfRegions }
    ensures objects { ObjectsInRegionsAreSmall }
    ensures entries { EntriesInRegionsAreSmall }
    ensures all { StoredInRegionsAreSmall }
    ensures unlisted { UnlistedTakeNone }
{}

/// So no write lacks ranges or bytes to stage where 770 ranges and 195,845 bytes are left, none that is settled or
/// removed where 935 and 239,360 are left, and no entry with no list where 304 and 77,824 are left.
pub fn writes_fit()
    ensures writes { WritesFit }
    ensures changes { ChangesFit }
    ensures comes { EntriesFitIn }
    ensures goes { EntriesFitOut }
    ensures marks { MarksFit }
{}
