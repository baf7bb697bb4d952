// What a client's lines tell of its commands: laws over every turn of a client.

ghost use Rattle.world_letters.specs.clients.Laws.{DoneClientsToldAll, HearingEndsAsAnswered, HearingTellsInTurn, MovesEndAsAnswered, TurnsTellInTurn};
ghost use Rattle.world_letters.specs.clients.Standing.{ClientsBegin};

/// Says what holds of a client throughout a run. Its attempts are those of its commands in turn: each
/// but the last of a command was told to restart, and the last wasn't, or is the last allowed; every
/// turn keeps that, whatever is heard, and when the client is done all its commands are told of. Where
/// what it hears is fit to what it asked, each attempt ended as it was answered: a committed one has
/// all its answers in order, and its conditions hold; one that failed shows the condition that is
/// false; no other shows one.
pub fn laws_of_clients()
    ensures begin { ClientsBegin }
    ensures turns { TurnsTellInTurn }
    ensures hearing { HearingTellsInTurn }
    ensures moves { MovesEndAsAnswered }
    ensures answers { HearingEndsAsAnswered }
    ensures done { DoneClientsToldAll }
{}
