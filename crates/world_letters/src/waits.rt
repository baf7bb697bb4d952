// What carries what clients wait for, where targets may stop and open again.

ghost use Rattle.world_letters.specs.waits.Laws.{ClientsKeepConversations, ConversationsBegin, CutsKeepConversations, EventsKeepConversations, FailuresKeepConversations, GivingUpKeepsConversations, HappeningsKeepConversations, IdleWorkKeepsConversations, NumbersKeepConversations, OpeningsKeepConversations, OthersKeepConversations, SweepsKeepConversations};

/// Says what carries what clients wait for, where targets may stop, and where snapshots and aggregates are
/// made. Of a client that waits, beside the letters that tell a tracker, just one thing goes about: what it
/// asked is in flight; a target holds it, as a read that waits, an attempt of whose end the client is to be
/// told, or a snapshot or an aggregation that is collected; or the answer to it is in flight, or the news
/// that there is none. What it asked is its request, or what became of its attempt, where the writes were
/// lost. While it is in flight or held, and only then, it is without an answer; of a client that doesn't
/// wait nothing goes about; and a target that doesn't run holds nothing. So it is at the beginning, and
/// what clients do keeps it so, also where they hear that what they asked was lost; and so do the idle
/// work of targets, what they hear from one another of attempts to prepare, marks and questions, a stop
/// anywhere in a turn, an opening, a failed one, a target that is given up, what is lost then, and numbers
/// that are drawn. So does everything that happens, with what targets hear of clients' requests and by what
/// they answer them, where requests come from clients, where rows stand once and each attempt that is led
/// and open has one, and where what goes to a target tells what became of others' attempts alone.
pub fn laws_of_waits()
    ensures begin { ConversationsBegin }
    ensures clients { ClientsKeepConversations }
    ensures idle { IdleWorkKeepsConversations }
    ensures others { OthersKeepConversations }
    ensures cut { CutsKeepConversations }
    ensures opening { OpeningsKeepConversations }
    ensures failure { FailuresKeepConversations }
    ensures given_up { GivingUpKeepsConversations }
    ensures swept { SweepsKeepConversations }
    ensures numbers { NumbersKeepConversations }
    ensures happening { HappeningsKeepConversations }
    ensures event { EventsKeepConversations }
{}
