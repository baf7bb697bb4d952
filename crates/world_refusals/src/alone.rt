// A client that is alone is never told to restart.

ghost use Rattle.world_refusals.specs.Never.{AloneRunsNeverRestart};

/// Says that at each moment of a run of one client, whether it makes snapshots, reads at them, aggregates,
/// or not, no line tells an attempt to restart, where none tells of a stop.
pub fn laws_of_only_client_runs()
    ensures { AloneRunsNeverRestart }
{}
