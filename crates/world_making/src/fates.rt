// Two-phase commit goes on where snapshots are made and containers aggregated.

ghost use Rattle.world_making.specs.fates.Laws.{AllEventsKeepAttempts, MakingCutsKeepAttempts, MakingKeepsAttempts};

/// The facts of attempts (`world_commit`) stay true where a target hears of a snapshot or an aggregation.
/// Nothing becomes of any attempt by it: the target settles attempts that it decided, which stay decided,
/// and may learn that another target is down. What it freezes, creates and prunes leaves entries as they
/// are; what it sends concerns no attempt between its leader and its members; and it answers just the
/// freeze or the prune that it was asked, since an attempt makes one snapshot, or one aggregation, at one
/// epoch. So it is where such a turn is cut, also in the middle of a prune. So each event of a run keeps
/// the facts of attempts, of what is told in it, or would be told if clients waited and the target went on.
/// This stands on facts that each event keeps: what clients ask comes of clients (`world_commit`), and
/// what is asked and told for snapshots and aggregations is of attempts that make them (`world_letters`,
/// `world_making`).
pub fn laws_of_fates_making()
    ensures heard { MakingKeepsAttempts }
    ensures cut { MakingCutsKeepAttempts }
    ensures events { AllEventsKeepAttempts }
{}
