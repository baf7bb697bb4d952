// What is stored once, where snapshots are made and containers aggregated.

ghost use Rattle.world_upheld.specs.stored.Laws.{AllClientsKeepStored, AllEventsKeepStored, AllHappeningsKeepStored, HappeningsKeepStoredWrites, MakingEndsMakers, MakingKeepsStored, MakingStoresNothing, StoredWritesBegin};

/// Says that what is stored once (`world_causes`) stays so where a target hears of a snapshot or an
/// aggregation. It stores nothing there, and tells only how an attempt ended that makes a snapshot or
/// aggregates. Such an attempt has no writes, so nothing of it is ever stored, or was about to be; nor
/// is it asked for: what is stored is of attempts with writes, whatever happens. What clients do keeps
/// it too, also where they read at snapshots: what they handed over they don't hand over again. So
/// whatever happens keeps what is stored once, and so does each event of a run.
pub fn laws_of_stored_making()
    ensures stores { MakingStoresNothing }
    ensures tells { MakingEndsMakers }
    ensures begin { StoredWritesBegin }
    ensures writes { HappeningsKeepStoredWrites }
    ensures heard { MakingKeepsStored }
    ensures clients { AllClientsKeepStored }
    ensures happens { AllHappeningsKeepStored }
    ensures events { AllEventsKeepStored }
{}
