// How attempts end where targets may stop, and where snapshots and aggregates are made.

ghost use Rattle.world_letters.specs.endings.Laws.{EndingsBegin, EventsKeepEndings};

/// Says that what is in flight ends attempts as it may: a read in a refusal alone; an attempt in one, as
/// unknown too where a target is down, or as committed, at an epoch; and a member refuses an attempt, and
/// a target a freeze, with a restart or a lack of space alone. So it is where nothing is in flight, and
/// every event of a run keeps it so: also what is heard of snapshots, aggregation, statuses and losses, a
/// stop, an opening, and what is lost.
pub fn laws_of_endings()
    ensures begin { EndingsBegin }
    ensures kept { EventsKeepEndings }
{}
