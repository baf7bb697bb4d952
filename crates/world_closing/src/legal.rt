// Where a run of any script is over, the report of its lines is legal.
ghost use Rattle.world_closing.specs.legal.Ended.{AllEndsAreInTurn, AllEndsHaveLines, EndedRunsFollow, KnownEndsAreLegal};
ghost use Rattle.world_closing.specs.legal.Following.{AllEventsNameSnapshots, RunsBeginNamed};
ghost use Rattle.world_closing.specs.legal.Headline.{AllReportsAreLegal};
ghost use Rattle.world_closing.specs.legal.Moments.{RunsIssueOnce, RunsNameSnapshots};
ghost use Rattle.world_closing.specs.legal.Openings.{OpeningsAreHeld, OpeningsHaveDkeys};
ghost use Rattle.world_closing.specs.legal.Outcomes.{AllOutcomesAreLegal};
ghost use Rattle.world_closing.specs.legal.Reads.{AllReadsAreLegal};
ghost use Rattle.world_closing.specs.legal.Snapshots.{AllSnapshotsAreLegal};
ghost use Rattle.world_closing.specs.legal.Told.{AllEndsAreTold};

/// Says that who reads at a snapshot by its name reads as named: when its line is told, its epoch is that of a
/// snapshot for which the name stands, one of before the run that the opening keeps, or one that an earlier
/// attempt of its client made; where the name stands for none it has no epoch, and just then it ends for want of
/// a snapshot. Clients know just the snapshots for which names stand; and a committed attempt has an epoch, or is
/// of a transaction. A run begins so, where target 0 holds as created what the opening keeps, and every event of
/// any run keeps it; so it is at each moment. And at each moment every attempt was issued an epoch once at most.
pub fn laws_of_named_reads()
    ensures begins { RunsBeginNamed }
    ensures events { AllEventsNameSnapshots }
    ensures runs { RunsNameSnapshots }
    ensures once { RunsIssueOnce }
{}

/// Says, where clients are done and no target is stopped, that what the lines tell is legal, in a run of any
/// script: reads, where it is known what became of attempts and no map has a cell without a dkey; snapshots and
/// aggregations, which come from attempts; outcomes and stops, where these were caused from outside, and restarts
/// and aggregations are counted if turns are taken in a stated order. Each attempt of which an epoch counts has
/// its line, with that, so that lines show their causes. So the report is legal. Of a run from its beginning to
/// where it is over the lines of clients stand in turn, one of each attempt, whatever its targets' versions stood for
/// when it began; and where it is known what became of attempts and what the targets stand for, the headline holds.
pub fn laws_of_legal_reports()
    ensures reads { AllReadsAreLegal }
    ensures snapshots { AllSnapshotsAreLegal }
    ensures outcomes { AllOutcomesAreLegal }
    ensures told { AllEndsAreTold }
    ensures reports { AllReportsAreLegal }
    ensures in_turn { AllEndsAreInTurn }
    ensures lines { AllEndsHaveLines }
    ensures ended { KnownEndsAreLegal }
    ensures follow { EndedRunsFollow }
{}

/// Says of openings that are what the stores of all targets stand for together, but for the snapshots that a script
/// drops: where versions are in form, no map has a cell without a dkey; and target 0 holds as created each snapshot
/// of which the opening keeps the map, where it holds so what it held before and the script doesn't drop.
pub fn laws_of_openings()
    ensures dkeys { OpeningsHaveDkeys }
    ensures held { OpeningsAreHeld }
{}
