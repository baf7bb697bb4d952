// Laws that runs stand on.
ghost use Rattle.daos_model.specs.Laws.{LaterChangesNothing, RisingRunInOrder, RunInParts, TookInParts};
ghost use Rattle.daos_model.specs.PruneLaws.{PruneKeepsCells};

/// Says what holds of every list of transactions. A transaction at or above an epoch changes
/// nothing as of that epoch. Where epochs rise and all lie below an epoch, the map as of it is what
/// the transactions make in their own order. What took effect by the lines of a report, and what
/// transactions make of a map, may be told in parts.
pub fn laws_of_runs()
    ensures later { LaterChangesNothing }
    ensures rising { RisingRunInOrder }
    ensures took { TookInParts }
    ensures run { RunInParts }
{}

/// Says what a prune of a container up to an epoch, whole or cut, leaves: above that epoch, and at
/// each snapshot of the container, every cell holds below it what it held before.
pub fn laws_of_prunes()
    ensures { PruneKeepsCells }
{}
