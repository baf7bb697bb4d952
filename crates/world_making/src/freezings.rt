// What is frozen where, who has answered a Freeze, and what is told and known of snapshots.

ghost use Rattle.world_making.specs.freezings.Fetching.{SnapshotFetchesAreRight, SnapshotWaitersAreRight};
ghost use Rattle.world_making.specs.freezings.InTheEnd.{CommittedAreCreated, NewSnapshotsAreMade};
ghost use Rattle.world_making.specs.freezings.Laws.{EventsKeepFreezings, FreezingsBegin};
ghost use Rattle.world_making.specs.freezings.Seeing.{FetchesAskFrozen, ReadersSeeFrozen, WaitingSeeFrozen};

/// Says what is frozen where. Who answered a Freeze of an attempt with Ok holds the snapshot of that attempt
/// frozen, at the epoch that was issued to it. So does the target that collects a snapshot, and so does each
/// target that it counts. What target 0 keeps as created is frozen at every target. What is frozen is of
/// before the run, or its epoch was issued to an attempt that makes a snapshot of its container. A snapshot
/// of which a line tells is created at target 0; a line tells of it before its client is told that the
/// attempt is committed which makes it; so the line of a committed attempt stands behind that of its
/// snapshot, as a legal report asks. What a client knows was there and is kept, or a committed attempt of its
/// own made it; and it knows what its committed attempts made. And what target 0 created in this run is the snapshot of an attempt whose client is told that
/// it is committed, or that its request got no answer, or which has its line, as a committed one or as one of
/// which its client isn't sure what became. So it is where nothing is in flight, told or collected, and where
/// what is created is frozen everywhere; and every event of a run keeps it so: whatever is heard, where a turn
/// is cut, before or behind or within a change, where a target stops, opens again, fails to, or is given up,
/// and whatever is lost.
pub fn laws_of_freezings()
    ensures begin { FreezingsBegin }
    ensures kept { EventsKeepFreezings }
{}

/// Says that an attempt that reads at a snapshot, at its epoch, reads at one that is frozen at every target:
/// so it is with what is asked for it, and with what of it waits at a target. In a run of a script in form
/// that snapshot is of the container of the read, and one of before the run that is kept, or one that was made
/// in it: so every target may answer such a read.
pub fn laws_of_snapshot_reads()
    ensures seen { ReadersSeeFrozen }
    ensures asked { FetchesAskFrozen }
    ensures waiting { WaitingSeeFrozen }
    ensures fetches { SnapshotFetchesAreRight }
    ensures waiters { SnapshotWaitersAreRight }
{}

/// Says that at each moment the snapshots of committed attempts are created at target 0; and that where
/// nothing is in flight, so in the end, each snapshot that it created in the run is that of an attempt with a
/// line, which is committed, or of which its client isn't sure what became.
pub fn laws_of_created_snapshots()
    ensures committed { CommittedAreCreated }
    ensures new { NewSnapshotsAreMade }
{}
