// No run is lost where runs are lists of events.
#![tactic(auto)]

ghost use Rattle.world_replay.specs.Replays.{RunsHaveLists};

/// Says that every run of a script in form, of any number of targets, without snapshots and aggregation,
/// from its beginning, is a list of events that starts well and of which each leads on, a target hearing only
/// what it can hear: one that starts where the run does, and ends where the run does. So what is asked
/// of a list of events beside its steps refuses none that such a run has.
pub fn laws_of_replays()
    ensures lists { RunsHaveLists }
{}
