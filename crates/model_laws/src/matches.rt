// When what a target keeps stands for the transactions that were decided.
ghost use Rattle.model_laws.specs.Matches.{AbortsKeepWrites, CommitsKeepWrites, DecisionsChangeNothingBelow, DecisionsKeepMatches, DecisionsKeepWhatIsBelow, MarksMayRise, MatchesGiveAsOf, PreparesKeepWrites, SameWritesKeepMatches, SameWritesKeepWhatIsBelow, SameWritesMakeTheSame, ServedReadsSeeAll};

/// Says what holds of a target's versions that match the decided transactions above a mark: at the
/// cells of the target's groups they are the same writes at or above the mark, and give the map as
/// of the mark. So they give the map as of every epoch from the mark on. A raised mark, a decided
/// transaction whose versions stand, and a change after which the same writes count keep it so; what
/// is given as of an epoch below a decided transaction's stays. A read that no unsettled version keeps
/// from its answer is answered by all that counts.
pub fn laws_of_matches()
    ensures give { MatchesGiveAsOf }
    ensures rise { MarksMayRise }
    ensures decide { DecisionsKeepMatches }
    ensures below { DecisionsKeepWhatIsBelow }
    ensures nothing { DecisionsChangeNothingBelow }
    ensures maps { SameWritesMakeTheSame }
    ensures same { SameWritesKeepMatches }
    ensures same_below { SameWritesKeepWhatIsBelow }
    ensures commit { CommitsKeepWrites }
    ensures abort { AbortsKeepWrites }
    ensures prepare { PreparesKeepWrites }
    ensures served { ServedReadsSeeAll }
{}
