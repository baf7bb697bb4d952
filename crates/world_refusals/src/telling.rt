// By what attempts are refused, as their commands go.

ghost use Rattle.world_refusals.specs.Events.{AllEventsKeepFitTelling, FitTellingBegins};
ghost use Rattle.world_refusals.specs.Runs.{AllRunsTellFitly};

/// Says that all that goes about of how attempts end, or are refused, goes with what their commands do. A
/// transaction that reads at a snapshot is told to restart only by an unresolved attempt: its snapshot is
/// frozen where it reads, so neither a floor nor a later write refuses it. A snapshot is told so only by a
/// floor that no snapshot set, or by an unresolved attempt; an aggregation only by an unresolved attempt. In
/// each case the unresolved one may be the attempt itself or another one. So it is where nothing is in
/// flight; every event of a run of a script in form keeps it so, and it holds at each moment.
pub fn laws_of_fit_refusals()
    ensures begin { FitTellingBegins }
    ensures kept { AllEventsKeepFitTelling }
    ensures runs { AllRunsTellFitly }
{}
