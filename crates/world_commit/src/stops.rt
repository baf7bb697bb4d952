// What the stops and openings of targets keep.

ghost use Rattle.world_commit.specs.stops.Laws.{CutsKeepAttempts, DrawnNumbersKeepAttempts, FailedOpeningsKeepAttempts, GivenUpTargetsKeepAttempts, OpeningsKeepAttempts, StopsKeepAttempts, SweepingKeepsAttempts, WorldEventsKeepAttempts};

/// The facts of attempts (`world_commit`) stay true where a target stops and loses what it remembers and
/// what goes to it, where it opens again and asks after its undecided attempts, where it fails to, where
/// it is given up, and where what goes to targets that are given up is lost. A target may stop in the
/// middle of any turn that is of no snapshot and no aggregation, before a change of what it keeps, after
/// it, or in a question; so it may find an entry that it answered for to nobody, and one may be gone of
/// an attempt that it aborted and told nobody of. At an opening those attempts are decided which no other
/// member has a part in. So each event of a run keeps the facts in which nothing is heard that comes
/// after stops (`world_commit` says what that keeps), or for snapshots and aggregation.
pub fn laws_of_stops()
    ensures stops { StopsKeepAttempts }
    ensures cuts { CutsKeepAttempts }
    ensures opens { OpeningsKeepAttempts }
    ensures fails { FailedOpeningsKeepAttempts }
    ensures given_up { GivenUpTargetsKeepAttempts }
    ensures swept { SweepingKeepsAttempts }
    ensures drawn { DrawnNumbersKeepAttempts }
    ensures events { WorldEventsKeepAttempts }
{}
