// That clients stay at their commands over everything that happens, and with which entries it begins.

ghost use Rattle.world_causes.specs.hearing.HappeningEpochs.{EventsKeepClients};
ghost use Rattle.world_causes.specs.hearing.Writing.{EntriesBegin};

/// Says that clients stay at the commands of their numbers, whatever happens. And where no target has an entry,
/// every attempt of which a target has one writes something.
pub fn laws_of_happenings()
    ensures begin { EntriesBegin }
    ensures clients { EventsKeepClients }
{}
