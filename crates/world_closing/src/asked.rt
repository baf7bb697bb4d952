// In any run who is waited for is asked, and where it has ended it is over; where it stands for the opening, what became of attempts is known.
ghost use Rattle.world_closing.specs.asked.Asked.{AllEndedRunsAreOver, AllEndedRunsConclude, AllRunsAskForCollections, AllRunsAskForWaiters, AllRunsHaveAll, AllRunsSendNone, AllStillRunsAreOver, ExplainedConclude, ExplainedResolve};
ghost use Rattle.world_closing.specs.asked.Collections.{AllEventsAskOthers};
ghost use Rattle.world_closing.specs.asked.Waiters.{AllEventsAsk};

/// Says who is asked in a run of any script in form, at each moment, whatever its targets' versions stood for when it
/// began: there is a target for each number, a client for each list of the script, and nothing goes to a target that was
/// given up. Of an attempt for whose end a client waits
/// each other member that isn't counted is asked, or is about to answer. So is each other target that isn't counted of
/// what a target collects, for a snapshot or for an aggregation; and what it collects first for an attempt lacks one.
/// Every event keeps that, what is heard of snapshots and aggregation, and turns that are cut, among them.
pub fn laws_of_asking()
    ensures events { AllEventsAsk }
    ensures others { AllEventsAskOthers }
    ensures all { AllRunsHaveAll }
    ensures gone { AllRunsSendNone }
    ensures waiters { AllRunsAskForWaiters }
    ensures collections { AllRunsAskForCollections }
{}

/// Says of such a run that it is over where nobody has a message to hear or a command to go on with, and so where it
/// has ended: nothing in flight goes to anyone who is there, each target runs or is given up, no Fetch waits, no client
/// waits, nothing is collected, each attempt that is undecided lacks a member that was given up, and all clients are
/// done.
pub fn laws_of_last_turns()
    ensures still { AllStillRunsAreOver }
    ensures over { AllEndedRunsAreOver }
{}

/// Says what became of attempts. At any moment a history goes on from the one that is explained in which just those
/// attempts are decided that the targets' durables resolve, those of targets that are stopped or were given up among
/// them. Where all clients are done each of them has its line, which says that it is committed or that it is unknown
/// what became of it; what is told as committed was decided at that epoch, and no attempt that failed is resolved. So
/// it is where a run that stands for the opening has ended.
pub fn laws_of_last_attempts()
    ensures resolve { ExplainedResolve }
    ensures conclude { ExplainedConclude }
    ensures concluded { AllEndedRunsConclude }
{}
