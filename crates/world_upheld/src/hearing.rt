// What targets can hear at each moment of any run, in which targets may stop, snapshots are made and read, and containers aggregated.

ghost use Rattle.world_upheld.specs.hearing.Across.{AllEventsGoAcross};
ghost use Rattle.world_upheld.specs.hearing.Hearable.{AllHeardIsInForm, AllLettersCanBeHeard};
ghost use Rattle.world_upheld.specs.hearing.Leases.{AllCutsLeaveCovered, AllCutsLeaveVersionsCovered, AllEventsKeepCovered, AllEventsKeepVersionsCovered, AllRaisedIsCovered, AllRunsAreCovered, AllRunsCutCovered, UpheldIsCovered};
ghost use Rattle.world_upheld.specs.hearing.Runs.{AllRunsSendSo, RunsCanHearAll, RunsGoAcross};
ghost use Rattle.world_upheld.specs.hearing.Sent.{AllEventsKeepSent};

/// Says that each event of a run, whatever it is, keeps it so that a Reset tells of one of the targets, and that a
/// tracker is told to a client; and that what one target asks of another for a snapshot or an aggregation, and what
/// that answers, comes from a target and goes to another one. So it is at each moment of a run.
pub fn laws_of_sending()
    ensures sent { AllEventsKeepSent }
    ensures across { AllEventsGoAcross }
    ensures sent_so { AllRunsSendSo }
    ensures gone_across { RunsGoAcross }
{}

/// Says that at each moment of any run of a script in form each letter in flight to a running target has the form
/// that a target asks for, and can be heard there. That is what goes about where no snapshot is made and nothing is
/// aggregated, also what comes of stops. Or a client asks to make a snapshot of a container that the target knows,
/// or to aggregate it; another target asks it to freeze such a container, or to prune it, at an epoch of 64 bits;
/// another target answers; what asked another one to freeze or to prune, at such an epoch, got no answer; or a client
/// asks for a read at a snapshot, in form, in a container that the target knows, which is frozen there. Nothing else
/// goes to a target.
pub fn laws_of_all_hearing()
    ensures letters { AllLettersCanBeHeard }
    ensures form { AllHeardIsInForm }
    ensures runs { RunsCanHearAll }
{}

/// Says that each event of a run, whatever it is, keeps what targets keep covered by their leases, and that so does a cut
/// of a turn, also in the midst of a prune: no version and no snapshot is later than the ticks that the lease covers;
/// so it goes on of versions alone, too.
/// So it is wherever all is upheld, and at each moment of any run, of a target that runs, of one that is stopped, which
/// can so open again, and of what is left wherever a turn is cut, or an opening fails.
pub fn laws_of_all_leases()
    ensures cuts { AllCutsLeaveCovered }
    ensures raised { AllRaisedIsCovered }
    ensures events { AllEventsKeepCovered }
    ensures versions { AllEventsKeepVersionsCovered }
    ensures versions_left { AllCutsLeaveVersionsCovered }
    ensures upheld { UpheldIsCovered }
    ensures runs { AllRunsAreCovered }
    ensures left { AllRunsCutCovered }
{}
