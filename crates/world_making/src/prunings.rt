// What holds of versions, served reads, floors and what clients were told, over everything that happens, also where snapshots are made and
// containers aggregated.

ghost use Rattle.world_making.specs.prunings.Containers.{AllEventsKeepMakersKnown, DeclaredAreKnown};
ghost use Rattle.world_making.specs.prunings.Floors.{AllEventsKeepFloors};
ghost use Rattle.world_making.specs.prunings.MakingGots.{AllEventsKeepGots};
ghost use Rattle.world_making.specs.prunings.MakingReads.{AllEventsKeepReads};
ghost use Rattle.world_making.specs.prunings.Writing.{AllEventsKeepEntries};

/// Says what stays true in each event of a run, also where a target hears that a snapshot is to be made or a
/// container aggregated, that another has done so, or that what was asked for it got no answer, and where
/// such a turn is cut, a prune in part too. Versions stand for the decided transactions, each snapshot that
/// is frozen gives the map as of its epoch, and served reads were answered right and stay guarded: of what
/// is decided and served by then, to which such a turn adds nothing. It asks that attempts have the epochs
/// that were issued to them, that what is asked for snapshots and aggregation comes of attempts, and that
/// targets know the containers of these. So they do where they know those that a script in form declares,
/// and they go on to. Every attempt of which a target has an entry writes something, and what clients were
/// told is what was served to their attempts. A floor above the opening's epochs has the line that tells of
/// it, or the floor of a restart covers it; an epoch above them up to which a container was aggregated has
/// its line.
pub fn laws_of_prunings()
    ensures reads { AllEventsKeepReads }
    ensures entries { AllEventsKeepEntries }
    ensures gots { AllEventsKeepGots }
    ensures floors { AllEventsKeepFloors }
    ensures declared { DeclaredAreKnown }
    ensures known { AllEventsKeepMakersKnown }
{}
