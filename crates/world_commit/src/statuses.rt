// What targets hear after stops keeps the facts of attempts.

ghost use Rattle.world_commit.specs.statuses.Events.{EventsKeepAttempts};
ghost use Rattle.world_commit.specs.statuses.Heard.{HeardFurtherKeepsAttempts};
ghost use Rattle.world_commit.specs.statuses.SenderLaws.{EventsKeepSenders};

/// The facts of attempts (`world_commit`) stay true where a target hears what comes after stops. A leader
/// that opened again is told what a member holds, which it counts as an Ack: one that holds nothing
/// refuses. A member that is asked says what it holds; where it holds nothing, the attempt isn't decided.
/// A client that asks what became of its attempt is told, or waits for it from then on. A target that
/// asked another one and gets no answer asks again, or leaves it: a leader asks what the member holds,
/// sends the same Mark again, or, where the member is down, tells the client that waits that it is
/// unknown what becomes of the attempt; who asked for a Fetch is told that the attempt is unresolved.
/// And a Commit with a member that is known to be down is stored nowhere. By none of this anything
/// becomes of attempts, but by what a member holds, and by a Commit that no epoch is left for. So each
/// event of a run keeps the facts, of what is told in it, or would be told if clients waited and the
/// target went on, unless something is heard for a snapshot or an aggregation. This stands on two facts
/// of letters that each event keeps: a Fetch and an Ask come from their attempt's client, and a Reset from
/// the target that it names.
pub fn laws_of_statuses()
    ensures heard { HeardFurtherKeepsAttempts }
    ensures events { EventsKeepAttempts }
    ensures senders { EventsKeepSenders }
{}
