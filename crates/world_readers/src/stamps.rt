// Whose the timestamps of running targets are.

ghost use Rattle.world_readers.specs.stamps.Events.{AllEventsKeepOwnStamps, AllEventsKeepUnnamedStamps, OwnStampsBegin};

/// Says that each timestamp of a running target is of an attempt of the script that was issued its epoch, asks
/// at its path, and reads at no snapshot. So it is where no running target has a timestamp, as once it has opened. Every
/// event of a run keeps it so, where what is asked of running targets, and what waits there, is right. Nothing is
/// said of what targets kept at the opening, or of what they answered.
pub fn laws_of_stamps()
    ensures begin { OwnStampsBegin }
    ensures own { AllEventsKeepOwnStamps }
    ensures unnamed { AllEventsKeepUnnamedStamps }
{}
