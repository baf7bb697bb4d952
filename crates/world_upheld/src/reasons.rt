// What tells of stops and what is stored once, in any run: targets may stop, snapshots are made and read, and containers aggregated.

ghost use Rattle.world_upheld.specs.reasons.Accounted.{AllEventsKeepAccounts, RunsAreAccountedFor, RunsBeginAccountedFor};
ghost use Rattle.world_upheld.specs.reasons.Doubting.{AllEventsKeepDoubts, MakingKeepsDoubts};
ghost use Rattle.world_upheld.specs.reasons.Hearing.{AllClientsHearOfStops, AllLossesTellOfGivenUp};
ghost use Rattle.world_upheld.specs.reasons.Knowing.{AllEventsKeepKnownDowns};
ghost use Rattle.world_upheld.specs.reasons.Leaders.{AllAcksAreKnown, AllAsksAreKnown, AllCommitsMeetGivenUp, AllLostQuestionsAreKnown, AllStatesAreKnown};
ghost use Rattle.world_upheld.specs.reasons.Reasons.{AllEventsKeepReasons, RunsBeginWithReasons, RunsHaveReasons};
ghost use Rattle.world_upheld.specs.reasons.Requests.{AllCommitsAreKnown, AllFetchesAreKnown, AllPreparesAreKnown, SnapshotFetchesAreKnown};

/// Says what goes on together in any run of a script in form, whatever its targets' versions stood for when it
/// began: its grounds, by what freezes are refused, that what tells of an attempt's loss at a stop has such a
/// stop behind it, that who is told that a target is down is told so of one that was given up, that leaders know
/// no others to be down, that each attempt was stored at most once at each target, one with writes, and that each
/// version above the opening is a write of an attempt that was stored there, and each timestamp of one that reads
/// there, of what was decided, aborted and stored by then. Each event keeps it, with what is stored in it; a run
/// begins with it, with nothing stored; and so it holds at each moment. Then a client that hears that a request of its
/// attempt was lost, also one for a snapshot or an aggregation, is told so of a target of the attempt: one that
/// was given up, or one that stopped since the attempt began.
pub fn laws_of_accounts()
    ensures events { AllEventsKeepAccounts }
    ensures begin { RunsBeginAccountedFor }
    ensures runs { RunsAreAccountedFor }
    ensures clients { AllClientsHearOfStops }
    ensures given_up { AllLossesTellOfGivenUp }
{}

/// Says that each event keeps it that leaders know no others to be down than such as were given up, also where
/// one is told so of a snapshot or an aggregation for which it asked: where it was so before, where who is told
/// that a target is down is told so of one that was given up, and Commits are new.
pub fn laws_of_downs()
    ensures known { AllEventsKeepKnownDowns }
{}

/// Says what is known when a leader hears of an attempt, where outcomes show their causes besides. Who asks
/// what became of it is its client; where no entry of it is kept, one of its targets stopped since it began;
/// and what the leader knows of it to be down was given up. Who waits for its end there is its client. A
/// member's refusal shows its cause, and so does the news that a member holds nothing, by a stop. Where a
/// question about an attempt got no answer by a target that is down, that is a target of the attempt, and was
/// given up; and so is a member that the leader knows to be down when it hears a Commit.
pub fn laws_of_leaders()
    ensures asks { AllAsksAreKnown }
    ensures acks { AllAcksAreKnown }
    ensures states { AllStatesAreKnown }
    ensures lost { AllLostQuestionsAreKnown }
    ensures commits { AllCommitsMeetGivenUp }
{}

/// Says what is known of what a target hears of an attempt, where outcomes show their causes besides. A Fetch
/// that is in flight to it reads what the attempt accesses: at no snapshot, or at one, whose epoch it bears,
/// and which is frozen at every target. A Commit brings all writes of the attempt, some of which the target is
/// to hold; and a Prepare brings writes of it, which take the blocks that it needs there. Each bears the
/// attempt's epoch, where one was issued, and its command's first, but for reads at snapshots; Fetches and
/// Commits come from the attempt's client. Where a Commit or a Prepare is in flight, its target has no entry of
/// the attempt. And where a line tells of a floor of the target, that is one of the attempt's.
pub fn laws_of_known_requests()
    ensures fetches { AllFetchesAreKnown }
    ensures snapshots { SnapshotFetchesAreKnown }
    ensures handed { AllCommitsAreKnown }
    ensures prepares { AllPreparesAreKnown }
{}

/// Says where a leader's stop shows, in any run. A leader that opened again may not know any more that an
/// attempt was decided of which its client was told that it is committed, or a line tells so: then it stopped
/// since the attempt began. So it did, too, where it stored an attempt once and doesn't run, and where a
/// question what became of an attempt is lost. What is heard of snapshots and aggregation keeps it so: what a
/// leader remembers as undecided stays, and ends are told there only of attempts without writes, which are
/// never in doubt. So each event keeps it so, beside all that stands, of what was decided and aborted by then.
/// In a run of a script in form each event keeps it beside all that is accounted for; a run begins with both,
/// and so both hold at each moment.
pub fn laws_of_doubts()
    ensures heard { MakingKeepsDoubts }
    ensures doubts { AllEventsKeepDoubts }
    ensures events { AllEventsKeepReasons }
    ensures begin { RunsBeginWithReasons }
    ensures runs { RunsHaveReasons }
{}
