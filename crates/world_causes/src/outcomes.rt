// What is told of how attempts ended, where targets may stop.

ghost use Rattle.world_causes.specs.outcomes.Keeping.{CountingKeepsOutcomes, DecidedAreTold, FailedAreUndecided, HappeningsKeepOutcomes, HearingKeepsOutcomes, MovesKeepOutcomes, OutcomesBegin, SweepingKeepsOutcomes, TargetsKeepOutcomes, ToldAreUndecided};

/// Says what holds of outcomes throughout a run of many targets, which may stop and open again. What a
/// client is told, or a line tells, of an attempt with writes is so: one that is told as committed is
/// decided, at the epoch that is told; of one that is told to have failed the leader keeps no entry, so
/// it isn't decided. Where it is unknown what became of an attempt, it may be decided or not. While an attempt's Commit is in flight, nothing became of it; and
/// whatever its leader stored, or is aborted, its client handed over: it waits for the attempt's end, or
/// is past it. So what failed never is decided afterwards. An attempt that was decided, or aborted, may
/// be told to nobody, where its leader stopped. Every step of a client keeps it so, where what it hears
/// goes with what it asked, and so does every event of a target, of what is told in it, or would be told
/// if clients waited and the target went on; clients hand attempts over one at a time there. And so it is
/// where nothing is in flight, told or kept. Of a decided attempt a line tells that it is committed, or that it is unknown what became of it.
pub fn laws_of_outcomes()
    ensures begin { OutcomesBegin }
    ensures moves { MovesKeepOutcomes }
    ensures counting { CountingKeepsOutcomes }
    ensures hearing { HearingKeepsOutcomes }
    ensures targets { TargetsKeepOutcomes }
    ensures happenings { HappeningsKeepOutcomes }
    ensures swept { SweepingKeepsOutcomes }
    ensures told { ToldAreUndecided }
    ensures failed { FailedAreUndecided }
    ensures decided { DecidedAreTold }
{}
