// What follows from the conversations of clients for other facts.

ghost use Rattle.world_causes.specs.handing.Laws.{ClientsAreTold, ClientsCommit, ClientsLoseQuestions, CommitsAreRight, ConversationsFit, ConversationsHandOver, EpochsGoWithCommits, EventsKeepGroups, LeadersAreAmongTargets, LeadersAreAsked, LossesShowStops, OpenVersionsAreHeld, PlacesAreInForm, ReadersAreNotBorn, SnapshotsAreInForm, TargetsAreAsked, TellersAreBegun};

/// Says what follows for other facts where each client that waits has one carrier of what it waits for,
/// targets may stop, and requests come from clients. An attempt is handed over, and asked after, by its
/// client alone, which waits for its end; nothing else of that client is in flight then; and an end, or what
/// a read is answered, is told to the client of its attempt. Where clients stand where their scripts say, a
/// Commit brings an attempt's writes to its leader, and who asks after one asks its leader; with the epochs
/// that were issued, and where nothing became of what is handed over, Commits are right and new. And a client
/// hears what goes with what it asked: a read's answer before it hands its attempt over, and that a request
/// was lost for the request that it made. A client that has something to ask is at one of the groups of its
/// path, whatever happens; so what is asked about an attempt, and is without an answer, is asked of one of
/// its targets, where what is read or written has groups, and the leader of a write is one of its members.
/// This is so in a script in form, where, too, what reads at a snapshot writes nothing. What is lost of a
/// client is a question about its attempt; nothing became of an attempt that reads; the leader of a present
/// attempt that it holds is one of its targets; and whatever tells of a stop of an attempt, its client has
/// begun it. What isn't settled is of an attempt of which its target keeps an entry, where versions stand.
/// And where losses do, a client that waits hears of one only behind a stop of a target of its attempt, or
/// where one is given up.
pub fn laws_of_handing()
    ensures over { ConversationsHandOver }
    ensures commits { ClientsCommit }
    ensures asks { LeadersAreAsked }
    ensures right { CommitsAreRight }
    ensures epochs { EpochsGoWithCommits }
    ensures fits { ConversationsFit }
    ensures groups { EventsKeepGroups }
    ensures targets { TargetsAreAsked }
    ensures lost { ClientsLoseQuestions }
    ensures readers { ReadersAreNotBorn }
    ensures leaders { LeadersAreAmongTargets }
    ensures begun { TellersAreBegun }
    ensures told { ClientsAreTold }
    ensures versions { OpenVersionsAreHeld }
    ensures losses { LossesShowStops }
    ensures places { PlacesAreInForm }
    ensures snapshots { SnapshotsAreInForm }
{}
