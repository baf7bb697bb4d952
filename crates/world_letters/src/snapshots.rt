// Of which attempts comes what is asked, collected and told of snapshots and aggregations.

ghost use Rattle.world_letters.specs.snapshots.Laws.{EventsKeepMakings, LinesComeFrom, MakingsBegin};

/// Says of which attempts comes what is told of snapshots and aggregations. What is asked for one, its
/// attempt makes by its command; where target 0 asks the others, and in what it collects, it is at the
/// epoch that was issued to the attempt; and so it is of what got no answer. A line of a freeze, of a
/// snapshot or of an aggregation comes of an attempt that makes it, at that epoch, and a container is
/// aggregated no further. So it is where nothing is in flight, told or collected, and every event of a run
/// keeps it so, also where a turn is cut in which a target froze or aggregated. So in the end, where each
/// attempt has its line, these lines come of attempts as a legal report asks.
pub fn laws_of_snapshots()
    ensures begin { MakingsBegin }
    ensures kept { EventsKeepMakings }
    ensures legal { LinesComeFrom }
{}
