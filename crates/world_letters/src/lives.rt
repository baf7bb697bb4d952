// What the lines of a run tell of its targets: which run, are stopped, or are given up.

ghost use Rattle.world_letters.specs.lives.Laws.{CutsRaiseLeases, EventsKeepLives, LivesAreInOrder, LivesBegin, NumbersAreCounted, PartsAreInOrder, StopsAreLegal, StopsAreTold};

/// Says what the lines of a run tell of its targets. After the last line of a target it stands as it
/// does: it runs, it is stopped, or it is given up. It opened again with ever higher incarnations, and
/// with floors that don't fall. A stop's number is the count of the stops before it; no two restarts have
/// one number, nor two aggregations, and each number was drawn. So it is where nothing is told and all
/// targets run, and every event of a run keeps it so, also where turns are cut, targets open again, fail
/// to, or are given up, and where snapshots and aggregates are made. A run tells of as many stops of a
/// target as its events stop it; and where numbers are drawn one by one, they are counted by the lines. A
/// turn that was cut leaves an incarnation as it was, and a lease no lower. So the lines are in the order
/// that a legal report asks for, at each moment; and at the end, where no target is stopped, a report of
/// these lines is legal as to stops, of what the outside caused.
pub fn laws_of_lives()
    ensures begin { LivesBegin }
    ensures kept { EventsKeepLives }
    ensures told { StopsAreTold }
    ensures counted { NumbersAreCounted }
    ensures leases { CutsRaiseLeases }
    ensures in_order { LivesAreInOrder }
    ensures parts { PartsAreInOrder }
    ensures legal { StopsAreLegal }
{}
