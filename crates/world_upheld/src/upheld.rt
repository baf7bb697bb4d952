// What goes on together between any two events of any run, in which targets may stop, snapshots are made and read, and containers aggregated.

ghost use Rattle.world_upheld.specs.upheld.Containers.{AllEventsKeepContainers, RunsKnowDeclared};
ghost use Rattle.world_upheld.specs.upheld.Heard.{AllHeardIsRight};
ghost use Rattle.world_upheld.specs.upheld.Runs.{RunsAreUpheld, RunsBeginUpheld, StandingRunsBeginWell, RunsBeginWithGrounds, RunsHaveGrounds, RunsHearAllRightly, RunsReadFrozen};
ghost use Rattle.world_upheld.specs.upheld.Signs.{RunsSignAlike};
ghost use Rattle.world_upheld.specs.upheld.Upheld.{AllEventsKeepGrounds, AllEventsUphold, GroundsGoOn};

/// Says that what the targets of a run hear is right, whatever clients ask: a read is what the present attempt
/// of its client has to ask of that target, of a group of a declared object, also one that waits there; a read
/// at a snapshot is in the container of that snapshot, at its epoch, which is frozen where it is read; it is
/// one of before the run that the opening keeps, or one of this run, of a name that the script does not declare.
/// Writes are those of the attempt, in form, and go to their leader; and the epoch that any other request bears,
/// or is issued, is its own. This stands on conversations, on where clients stand and what they were told, on
/// epochs, on what became of attempts, on what targets ask one another, on which attempts make snapshots, and on
/// what is frozen where, of a script in form.
pub fn laws_of_requests()
    ensures right { AllHeardIsRight }
{}

/// Says what any run stands on, whatever its targets' versions stood for when it began: replicas may have differed then, and versions
/// lain anywhere. What goes on together, whatever happens, of what was decided and aborted by then: that what is heard is right; of which
/// attempts snapshots and aggregations come, that targets know their containers, and what is frozen where; who sends and answers, how
/// attempts end and what lines and ends tell of it; floors, first epochs, and the lines of targets. No event is excluded: clients make
/// snapshots, read at them and aggregate, targets stop in any turn, open again, fail to, or are given up. A run of a script in form begins
/// with it where nothing is left to settle, no target keeps a version or a snapshot above its lease, all know the script's containers, what
/// target 0 holds as created is frozen at every target and the opening keeps a map for it, and clients know just such snapshots; and so it
/// holds at each moment. One whose targets stand for the opening begins so. Then each
/// attempt that reads at a snapshot reads at one that is frozen at every target.
pub fn laws_of_grounds()
    ensures events { AllEventsKeepGrounds }
    ensures later { GroundsGoOn }
    ensures well { StandingRunsBeginWell }
    ensures begin { RunsBeginWithGrounds }
    ensures runs { RunsHaveGrounds }
    ensures seen { RunsReadFrozen }
{}

/// Says that what any run stands on goes on together with what targets keep, what they answered and what clients were
/// told of that, whatever happens, of what was decided and aborted by then, and of what was served, which only grows.
/// What is stored once, losses, doubts and causes stand beside it (`laws_of_explanations`). A run of a script in form begins with it over stores that stand for what the
/// opening does, where what target 0 holds as created is frozen at every target, where its cells below its epoch give
/// the map that the opening keeps of it, and where clients know just such snapshots; and so it holds at each moment.
/// Then what targets hear is right.
pub fn laws_of_upheld()
    ensures events { AllEventsUphold }
    ensures begin { RunsBeginUpheld }
    ensures runs { RunsAreUpheld }
    ensures hear { RunsHearAllRightly }
{}

/// Says that a target goes on knowing the containers that it knows in each event, also where it freezes and
/// prunes, where a turn of it is cut, it opens again, fails to, or is given up. So at each moment of a run each
/// target knows the containers that the script declares.
pub fn laws_of_containers()
    ensures events { AllEventsKeepContainers }
    ensures runs { RunsKnowDeclared }
{}

/// Says what one who sees the world at a moment of any run finds of how attempts ended, whatever its targets' versions
/// stood for when it began. An attempt has a decided sign where a target holds it committed, or its leader counts it as
/// decided, where a Mark or a Verdict in flight says so, and where it has writes and its client is being told so, or a line
/// tells it. It has an aborted sign where a Mark or a Verdict in flight says that it had no effect, and where it has writes
/// and its client is being told so, or a line tells it. None has both. Where one has a decided sign its leader and each
/// other member hold it; where one has an aborted sign its leader has no entry of it, and no target has it committed.
pub fn laws_of_signs()
    ensures { RunsSignAlike }
{}
