// Laws of lists of events.
ghost use Rattle.world_list.specs.RunLists.{ListsAreRuns};
ghost use Rattle.world_list.specs.WorldLists.{WorldListsAreRuns};

/// Says that a list of events that is a run is one of events, one after another, from its start to
/// its last world.
pub fn laws_of_lists()
    ensures { ListsAreRuns }
{}

/// Says that a list of any events that is a run is one of events, one after another, from its start to
/// its last world: turns that are cut, openings, and targets that are given up among them, what is heard
/// of stops, snapshots and aggregation, and numbers that are drawn between them.
pub fn laws_of_world_lists()
    ensures { WorldListsAreRuns }
{}
