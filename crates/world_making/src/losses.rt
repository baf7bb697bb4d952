// Who tells that an attempt is unresolved by itself, where snapshots are made and containers aggregated.

ghost use Rattle.world_making.specs.losses.Laws.{AllEventsKeepLosses, MakingKeepsLosses};
ghost use Rattle.world_making.specs.losses.Refusals.{EventsKeepFreezeRefusals, FreezeRefusalsBegin};

/// Says by what freezes are refused: by a floor, or for want of space. What tells of one that is refused
/// tells so. So it is where nothing is in flight, and every event of a run keeps it so, where what is in
/// flight ends attempts as it may (`world_letters`).
pub fn laws_of_freeze_refusals()
    ensures begin { FreezeRefusalsBegin }
    ensures kept { EventsKeepFreezeRefusals }
{}

/// Says that the facts of losses (`world_causes`) stay true where a target hears of a snapshot or an
/// aggregation. No line tells of an attempt there. Nothing that is sent tells of a stop: the others are
/// asked to freeze or to prune, target 0 is answered, or the client is told how its attempt ended, which
/// is never as unresolved by itself, since a freeze is refused by a floor or for want of space. So each
/// event of a run keeps them, beside what they stand on.
pub fn laws_of_losses_making()
    ensures heard { MakingKeepsLosses }
    ensures events { AllEventsKeepLosses }
{}
