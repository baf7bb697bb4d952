// The first epochs of commands where targets may stop.

ghost use Rattle.world_causes.specs.firsts.Laws.{EventsKeepFirsts, FirstsBegin};

/// Says that the first epoch that a client keeps of its command, and that goes with its requests and with
/// those of targets, was issued to one of the command's attempts up to this one, and that those before that
/// one were lost at stops; where there is none, all attempts before were lost. So it is where nothing is in
/// flight, and every event of a run keeps it so: turns as without stops, what is heard of snapshots,
/// aggregation, statuses and losses, a stop, an opening, and what is lost.
pub fn laws_of_firsts()
    ensures begin { FirstsBegin }
    ensures kept { EventsKeepFirsts }
{}
