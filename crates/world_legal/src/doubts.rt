// What a leader no longer knows of attempts after a stop: where that shows, it stopped since the attempt began.
ghost use Rattle.world_legal.specs.doubts.Laws.{DoubtsBegin};

/// Says where a leader's stop shows. A leader that opened again may not know any more that an attempt was
/// decided of which its client was told that it is committed, or a line tells so: then it stopped since the
/// attempt began. So it did, too, where it stored an attempt once and doesn't run, and where a question what
/// became of an attempt is lost. It is so where nothing is in flight, told or kept.
pub fn laws_of_doubts()
    ensures begin { DoubtsBegin }
{}
