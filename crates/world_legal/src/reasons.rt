// Who is told that a target is down, in each event in which targets may stop.

ghost use Rattle.world_legal.specs.reasons.Downs.{DownsBegin, EventsKeepDowns};
ghost use Rattle.world_legal.specs.reasons.Knowing.{EventsKeepKnownDowns, KnownDownsBegin};

/// Says that who is told that a target is down, by which a question got no answer, is told so of one that a
/// line tells was given up: where nothing is in flight, and after each event, where it was so before. That
/// asks for the endings before, and for the conversations and the lines of targets after it. So leaders know
/// no others to be down: where they know of none, and after each event, where it was so before and Commits are
/// new.
pub fn laws_of_downs()
    ensures begin { DownsBegin }
    ensures events { EventsKeepDowns }
    ensures known_begin { KnownDownsBegin }
    ensures known { EventsKeepKnownDowns }
{}
