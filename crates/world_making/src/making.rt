// What turns leave in which snapshots are made and containers aggregated.

ghost use Rattle.world_making.specs.making.Making.{CutHearingsLeave, HearingsLeave};
ghost use Rattle.world_making.specs.making.Snapshots.{CreatedAreFrozen, CreatedStay, FreezesStay};

/// Says what turns leave in which a target hears of a snapshot or an aggregation: what asks for one, what
/// tells that it is frozen or pruned, and that such a message got no answer. They all go by the same
/// steps. The lease is extended until it covers the epoch that is issued or borne. For an aggregation what
/// is decided here is settled, one attempt after another, and then the container is pruned as far as its
/// unsettled versions let it. A snapshot is frozen where nothing refuses it; it is created where it is
/// frozen on the only target, or where the last other target holds it. What the target knows as a leader
/// and as a member stays, but that it settled what it decided, and that another target is known to be down
/// where it is told so; so do the reads that it served. An epoch is issued to the attempt that asks for one
/// alone. What is sent asks the others to freeze or to prune, answers such a question, tells the client
/// that waits how its attempt ended, or asks again. Where such a turn is cut, it is cut in such steps.
///
/// What a target holds frozen it holds so for good: every event of a run leaves it, also where a turn is
/// cut, and where a target opens again or is given up. So it is with what it holds as created, and that is
/// frozen there.
pub fn laws_of_making()
    ensures heard { HearingsLeave }
    ensures cut { CutHearingsLeave }
    ensures freezes { FreezesStay }
    ensures created { CreatedStay }
    ensures held { CreatedAreFrozen }
{}
