// That epochs keep the order of real time where clocks keep a bound, in runs of any script.
#![tactic(auto)]

ghost use Rattle.world_order.specs.Events.{AllEventsKeepOrder};
ghost use Rattle.world_order.specs.Lines.{LinesAreConsistent};
ghost use Rattle.world_order.specs.Runs.{AllRunsAreConsistent, RunsBeginInOrder, RunsStandInOrder};

/// Says that in a run of any script in form what targets keep stored, and what they served at no snapshot, lies
/// behind what was answered before: each event keeps it, snapshots that are made, reads at them, aggregations and
/// stops among them, beside all that is upheld. A run begins with it, and so it is at each moment. Where it is so,
/// lines are externally consistent where they keep the bound that the run is given. That is: of two committed
/// attempts that read at no snapshot, and of which one writes on a path that overlaps an access of the other, the
/// one that was answered before the other's command began has the smaller epoch. The bound is that an attempt which
/// was answered before a command began has an epoch that is above no epoch of the command's attempts by more than
/// so many ticks. It isn't said that clocks keep it.
pub fn laws_of_real_time()
    ensures events { AllEventsKeepOrder }
    ensures begin { RunsBeginInOrder }
    ensures moments { RunsStandInOrder }
    ensures lines { LinesAreConsistent }
    ensures runs { AllRunsAreConsistent }
{}
