// That outcomes show their causes, also where snapshots are made and containers aggregated.

ghost use Rattle.world_upheld.specs.causing.Begin.{AllCausesBegin, RefusalsAndPlacesBegin};
ghost use Rattle.world_upheld.specs.causing.Clients.{GoingKeepsCauses, HearsKeepsCauses};
ghost use Rattle.world_upheld.specs.causing.DatedCuts.{SnapshotReadCutsKeepCauses, VerdictCutsKeepCauses};
ghost use Rattle.world_upheld.specs.causing.DatedReads.{CountingKeepsCauses, SnapshotReadsKeepCauses};
ghost use Rattle.world_upheld.specs.causing.DateLaws.{EventsKeepDates, ReadsComeToCount};
ghost use Rattle.world_upheld.specs.causing.DatedTurns.{LostQueriesKeepCauses, VerdictsKeepCauses};
ghost use Rattle.world_upheld.specs.causing.Events.{MakingCutsKeepCauses, MakingKeepsCauses};
ghost use Rattle.world_upheld.specs.causing.Happening.{AllEventsKeepCauses, AllHappeningsKeepCauses};
ghost use Rattle.world_upheld.specs.causing.PlaceLaws.{AllEventsKeepPlaces};
ghost use Rattle.world_upheld.specs.causing.OverDates.{CausesOverDatesBegin, EventsKeepCausesOverDates, LaterReadsWereIssued, ReadsCount};
ghost use Rattle.world_upheld.specs.causing.Readers.{AllEventsKeepReaders};
ghost use Rattle.world_upheld.specs.causing.RefusalLaws.{AllEventsKeepFreezeRefusals};
ghost use Rattle.world_upheld.specs.causing.SnapshotReads.{SnapshotReadsMeetNone, SnapshotReadsShow};

/// Says what attempts' outcomes show where snapshots are made and containers aggregated. A target that hears
/// of a snapshot or an aggregation keeps that each outcome that goes about or that a line tells of shows its
/// cause, also where such a turn is cut: a freeze is refused below an epoch up to which its container was
/// aggregated, of which a line tells, or where other snapshots took all places; no ticks are left for an
/// epoch; a target is down that was given up, of which a line tells; or the attempt is committed. It asks for
/// what is known of conversations, clients, epochs, and of what makes snapshots and aggregates; and for two
/// facts that every event of a run keeps. No more snapshots stand at a target than at the opening and those
/// of attempts that make them, which are frozen there at the epochs that were issued to them. And each
/// refusal of a Freeze that goes about shows its cause.
///
/// Clients keep it too, whatever their commands are: whether they read at snapshots, make them, or aggregate.
/// And so everything that happens keeps it, and every event of a run, where it is known what each thing that is
/// heard rests on: by the epochs that count as those of attempts, which are those that were issued, and for an
/// attempt that reads at a snapshot that of the snapshot. What is issued in an event counts after it; and an
/// attempt that was begun stays so. At the beginning it is so in any script, where nothing is in flight, issued,
/// parked or told.
pub fn laws_of_causing()
    ensures making { MakingKeepsCauses }
    ensures cut { MakingCutsKeepCauses }
    ensures places { AllEventsKeepPlaces }
    ensures refusals { AllEventsKeepFreezeRefusals }
    ensures going { GoingKeepsCauses }
    ensures hearing { HearsKeepsCauses }
    ensures happening { AllHappeningsKeepCauses }
    ensures kept { AllEventsKeepCauses }
    ensures begin { AllCausesBegin }
    ensures first { RefusalsAndPlacesBegin }
{}

/// Says what reads at snapshots show. Such a read bears the epoch of the snapshot, which was issued to another
/// attempt. Where that counts as its attempt's, what a target sends that hears it shows its cause: it is
/// answered, since no aggregation passes a snapshot that is frozen; or it meets an attempt with an earlier
/// epoch that is open to it, of which its client is told, or the leader of that one is asked while the read
/// waits. Where the epochs that were issued alone count, as for other attempts, no outcome shows that: so then
/// no read at a snapshot was told of an unresolved attempt, and no leader is asked for one.
///
/// One epoch more may count as an attempt's: outcomes show their causes as before. Where the snapshot's epoch counts
/// as that of an attempt that reads there, a target keeps that outcomes show their causes as it hears such a read; as
/// it hears a Verdict, which may free such reads; as it hears that its question for one got no answer; and where it
/// stops as it hears a read or a Verdict. Which epochs count stays in order over every event; that of a read comes to
/// count; and reads at snapshots that wait at a target meet what they wait for.
pub fn laws_of_reads_at_snapshots()
    ensures shown { SnapshotReadsShow }
    ensures alone { SnapshotReadsMeetNone }
    ensures counting { CountingKeepsCauses }
    ensures kept { SnapshotReadsKeepCauses }
    ensures cut { SnapshotReadCutsKeepCauses }
    ensures verdict { VerdictsKeepCauses }
    ensures verdict_cut { VerdictCutsKeepCauses }
    ensures lost { LostQueriesKeepCauses }
    ensures dates { EventsKeepDates }
    ensures counted { ReadsComeToCount }
    ensures readers { AllEventsKeepReaders }
{}

/// Says that outcomes show their causes over dates, whatever happens in any script, where reads at snapshots are
/// among what is asked: what counts as epochs of attempts are those that were issued, and for an attempt that
/// reads at a snapshot that of the snapshot. Each event of a run keeps it, with what is stored in it, where it is
/// known what the event rests on; a read at a snapshot comes to count as it is heard; and it is so where nothing
/// is in flight, issued, parked or told. All this holds, too, where each read at a snapshot counts as so much later
/// than it. Where it holds both ways, each later read that a line's cause names was issued its epoch: it is none at
/// a snapshot.
pub fn laws_of_causes_over_dates()
    ensures events { EventsKeepCausesOverDates }
    ensures begin { CausesOverDatesBegin }
    ensures counts { ReadsCount }
    ensures later_reads { LaterReadsWereIssued }
{}
