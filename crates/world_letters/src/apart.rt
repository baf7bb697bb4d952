// What an event leaves to all but the one who acts in it.

ghost use Rattle.world_letters.specs.apart.Laws.{EventsSpareOthers, EventsTakeTheirNumbers, FreeAggregatesStay, FreeRestartsStay, SweepingAsksForDowns};

/// Says what an event leaves to all but the one who acts in it. Every other client and target stays as it
/// is, and there are as many. The lines that it adds have no number of a restart or of an aggregation but
/// the one that was drawn for it; so a number that was drawn for another, and isn't given back, is still
/// that of no line. What is lost since targets are given up can be told from the list of these alone,
/// whatever else is known of targets. So who acts needs to know no other actor, and what others hold in
/// hand meanwhile stays good.
pub fn laws_of_sparing()
    ensures spared { EventsSpareOthers }
    ensures numbers { EventsTakeTheirNumbers }
    ensures restarts { FreeRestartsStay }
    ensures aggregates { FreeAggregatesStay }
    ensures swept { SweepingAsksForDowns }
{}
