// What becomes of attempts where targets may stop: one between its leader, its other members and the letters between them.

ghost use Rattle.world_commit.specs.fates.Keeping.{AttemptsAreKept, AttemptsBegin, DecidedOnce, NoneIsBoth};
ghost use Rattle.world_commit.specs.fates.Rightly.{EventsAreRight, LettersTellOfOthers};
ghost use Rattle.world_commit.specs.fates.Waited.{WaitedAreTold};

/// Says what holds of each attempt throughout a run of many targets, which may stop and open again.
/// Where anything of it stands or is in flight between targets, its leader keeps its entry, or it is
/// aborted. Once it is decided, its leader and all other members hold it, at one epoch, and no refusal
/// to the present incarnation of its leader is in flight; once it is aborted, its leader has no entry of
/// it. What its leader remembers of it is of an entry that isn't committed, and while the leader runs it
/// remembers each such entry; a target that doesn't run remembers nothing. Where the leader counts who
/// has answered, just one holds of each other member that it doesn't know to be down: the present
/// incarnation asks it for the attempt, its answer is in flight, or the news that there is none, or it
/// is counted, and then holds the attempt. All incarnations together ask a member at most once to
/// prepare it, and while they do it holds nothing of it. What letters between targets say is so, and
/// what was asked; of what targets ask and answer at once as much is without an answer as is in flight.
/// Each right event keeps it so, of what is decided and aborted by what targets tell, or would tell if a
/// client waited; where a client waits for each attempt with a row, that is what they send. And so it is
/// where nothing is stored and in flight. No attempt is both decided and aborted, and none is decided at
/// two epochs. Where this holds, what goes to a target tells what became
/// of others' attempts alone, so each event is a right one.
pub fn laws_of_fates()
    ensures begin { AttemptsBegin }
    ensures kept { AttemptsAreKept }
    ensures apart { NoneIsBoth }
    ensures once { DecidedOnce }
    ensures told { LettersTellOfOthers }
    ensures right { EventsAreRight }
    ensures waited { WaitedAreTold }
{}
