// What clients ask of targets comes from them, whatever happens; and what follows for other facts.

ghost use Rattle.world_commit.specs.requests.Laws.{ConversationsStay, EventsKeepRequests, EventsKeepRows, HappeningsKeepRequests, LeadersKnowAttempts, NewCommitsFindNoRow, RequestsBegin};

/// Says where requests come from, whatever happens. What is asked of targets to read, to commit, what became
/// of an attempt, for a snapshot or for an aggregation comes from a client; the news that such a request got
/// no answer, what a read is answered, and how an attempt ended, go to a client; and who waits at a target, for the end of an attempt or
/// for what is collected, is a client. So it is at the beginning, and everything that happens keeps it so.
/// What a leader remembers of undecided attempts stands in their order, so none stands twice, where a Commit
/// finds nothing of its attempt there; and so it is of Commits that are new. Where the facts of attempts hold
/// besides, leaders know what they lead, and each event of a run keeps the conversations of clients.
pub fn laws_of_requests()
    ensures begin { RequestsBegin }
    ensures happening { HappeningsKeepRequests }
    ensures kept { EventsKeepRequests }
    ensures rows { EventsKeepRows }
    ensures new { NewCommitsFindNoRow }
    ensures known { LeadersKnowAttempts }
    ensures conversations { ConversationsStay }
{}
