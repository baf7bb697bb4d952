// That outcomes show their causes at each moment of a run, also where snapshots are made and read, and containers aggregated.

ghost use Rattle.world_upheld.specs.explained.Explanations.{AllEventsExplain, AllEventsKeepExplanations, AllHeardIsKnown, AllRunsNameIssuedReads, AllRunsShowCauses, KeptAreNoMore, MakingIsKnown, RunsAreExplained, RunsBeginWithExplanations, RunsHaveExplanations};

/// Says what goes on together in any run with the causes that outcomes show, whatever its targets' versions stood for
/// when it began: all that is accounted for, where leaders' stops show, that each outcome that goes about, or that a
/// line tells of, shows its cause over dates, and how many places of snapshots are taken. With that it is known what
/// causes stand on where snapshots are made and containers aggregated; and so is what is heard in an event, once the
/// epoch of the snapshot counts as that of a read that is heard. So each event keeps it. A run begins with it,
/// whatever its script does, where no target holds more snapshots than the opening keeps maps of: that is so where
/// each holds only such as it keeps a map of. So it holds at each moment of a run, and each outcome shows its cause
/// over dates; a later read that a line's cause names was issued its epoch. Of a run that stands for the opening it
/// goes on together with what targets keep and answer.
pub fn laws_of_explanations()
    ensures making { MakingIsKnown }
    ensures heard { AllHeardIsKnown }
    ensures events { AllEventsKeepExplanations }
    ensures kept { KeptAreNoMore }
    ensures begin { RunsBeginWithExplanations }
    ensures runs { RunsHaveExplanations }
    ensures shown { AllRunsShowCauses }
    ensures later_reads { AllRunsNameIssuedReads }
    ensures explain { AllEventsExplain }
    ensures explained { RunsAreExplained }
{}
