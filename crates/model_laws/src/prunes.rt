// What a prune leaves as it is.
ghost use Rattle.model_laws.specs.Pruning.{PrunesAreWhole, PrunesKeepAnswers, PrunesKeepMatches, PrunesKeepNow, PrunesKeepOrder, PrunesKeepOthers, PrunesKeepSights, PrunesKeepStand, PrunesKeepWhatIsGiven};

/// Says what holds of every prune of a container up to an epoch, also of one that was cut. Below each
/// epoch above it, and below that of each snapshot of the container, frozen or created, every cell
/// holds what it held, so every read is answered as before; and so does the map now. Versions that
/// match the decided transactions go on to match from the epoch after the prune on, and at cells of
/// other containers from where they did. Prunes, wherever they were made or cut, leave what all
/// targets stand for, its snapshots too, where versions stand in order and each created snapshot is
/// frozen at each target.
pub fn laws_of_prunes()
    ensures whole { PrunesAreWhole }
    ensures order { PrunesKeepOrder }
    ensures sights { PrunesKeepSights }
    ensures now { PrunesKeepNow }
    ensures answers { PrunesKeepAnswers }
    ensures matches { PrunesKeepMatches }
    ensures others { PrunesKeepOthers }
    ensures given { PrunesKeepWhatIsGiven }
    ensures stand { PrunesKeepStand }
{}
