// What the targets stand for at each moment of any run, and in its end: now, at the snapshots of earlier runs, and at its own.
ghost use Rattle.world_closing.specs.stands.Covered.{AllRunsStayWithin};
ghost use Rattle.world_closing.specs.stands.Held.{OpenedAreHeld};
ghost use Rattle.world_closing.specs.stands.Lasting.{LastingStoresBegin};
ghost use Rattle.world_answers.specs.world_making.freezings.Snapped.{AllEventsSnapSo};
ghost use Rattle.world_closing.specs.stands.Stands.{AllEndsStand, AllRunsKeepFloors, AllRunsKeepSound, AllRunsStandForResolved};

/// Says what the targets of any run stand for, those that are stopped or were given up among them, of a script in form,
/// over stores with the snapshots of earlier runs, where they hold all that the opening stands for. At each moment it is
/// the opening and, one by one in the order of their epochs, just the attempts that are resolved there. Each snapshot of
/// the opening stands with the map that it had, also where containers were aggregated; any other is of an attempt that
/// makes it, at the epoch that was issued to it, and stands for its container's part of the opening and of the resolved
/// attempts below that epoch. Replicas agree, now and at each of these.
///
/// It is sound at each moment where it was sound when the run began; and each frozen snapshot lies at or below the floor
/// of its container.
///
/// Where the run has ended, it is known what became of attempts, and each has one line at most, the targets stand for
/// exactly what took effect, every reported commit among it; and their snapshots are those of the opening, with the same
/// maps, and those of committed attempts, each of which is kept, or of attempts of which it isn't sure what became, with
/// the maps as of their epochs by what took effect.
pub fn laws_of_stands()
    ensures resolved { AllRunsStandForResolved }
    ensures sound { AllRunsKeepSound }
    ensures floors { AllRunsKeepFloors }
    ensures ended { AllEndsStand }
{}

/// Says that targets hold all that an opening stands for where that is what they stand for together, where their durables
/// are in form, and where its lease is the greatest of theirs. Where they are sound too, with nothing left to settle, and
/// each of their snapshots is one that target 0 holds as created, at or below the floor of its container, they keep what a
/// run begins with over that opening.
pub fn laws_of_held_openings()
    ensures held { OpenedAreHeld }
    ensures begin { LastingStoresBegin }
{}

/// Says what every event leaves of snapshots and of what leases cover. What is frozen or created stays so; what is newly
/// frozen or created is the snapshot of an attempt that makes it, at the epoch that was issued to it by then. No epoch
/// that a target keeps, of a version, an entry, a floor, an aggregation or a snapshot, is above both one that was above
/// all when the run began and what its lease covers.
pub fn laws_of_kept_epochs()
    ensures snapped { AllEventsSnapSo }
    ensures within { AllRunsStayWithin }
{}
