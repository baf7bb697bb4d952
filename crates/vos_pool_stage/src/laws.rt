// Laws of what is staged.
ghost use Rattle.vos_pool_stage.specs.Laws.{ContentsSayTheirHeaders, EntriesAreStaged, ObjectsAreStaged, StagedAreShown, StagedStands, StagingBegins};

/// With nothing staged that is staged which stands. What is staged is shown to the calls of objects and of entries, and what
/// these make of it is staged then. With its counters staged too, what is to stand stands.
pub fn changes_are_staged()
    ensures begins { StagingBegins }
    ensures shown { StagedAreShown }
    ensures objects { ObjectsAreStaged }
    ensures entries { EntriesAreStaged }
    ensures stands { StagedStands }
{}

/// A content in which something stands says of its layout, of the lease and of its targets what the header of its table
/// says.
pub fn contents_say_their_headers()
    ensures { ContentsSayTheirHeaders }
{}
