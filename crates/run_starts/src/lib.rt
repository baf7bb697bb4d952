// The stores of all targets are opened for a run of a script.
#![tactic(auto)]

mod enlisting;
mod held;
mod leases;
pub mod opening;
pub mod stop;

ghost use Rattle.run_starts.specs.Begins.{OpenedStoresBegin};
ghost use Rattle.run_starts.specs.Runs.{OpenedRunsBegin};

/// Says that a run of any script may begin with targets that keep what stores keep that were opened for it: with
/// what they stood for, but for the snapshots that the script drops. Each target holds, frozen, those that last.
/// So a run begins where the targets over these stores have just started, and the clients know which snapshots
/// target 0 holds.
pub fn laws_of_beginnings()
    ensures stores { OpenedStoresBegin }
    ensures runs { OpenedRunsBegin }
{}
