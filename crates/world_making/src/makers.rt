// Who makes snapshots and aggregates.

ghost use Rattle.world_making.specs.makers.Laws.{EventsKeepMakers, MakersBegin, MakersWrite};

/// Says of which attempts is what is told of snapshots and aggregations. That a snapshot is frozen, or a
/// container pruned, is told of attempts that make a snapshot or aggregate; and a prune is asked by a client
/// after its tracker, or by target 0 up to an epoch. So it is where nothing is in flight, and every event
/// of a run keeps it so, where what is asked comes of such attempts. They have no writes; so no message of
/// a snapshot or an aggregation is about an attempt with writes.
pub fn laws_of_makers()
    ensures begin { MakersBegin }
    ensures kept { EventsKeepMakers }
    ensures write { MakersWrite }
{}
