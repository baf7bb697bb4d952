// That answers that go about and that lines tell are such as a report's text determines, whatever targets kept when they were opened.
#![tactic(auto)]

ghost use Rattle.world_answers.specs.Events.{AllEventsKeepAnswersInForm, AnswersBeginInForm};
ghost use Rattle.world_answers.specs.Reads.{AnswersJoinInForm, StoresAnswerInForm};
ghost use Rattle.world_answers.specs.Requests.{AllEventsKeepAsksInForm, AsksAreReads, AsksBeginInForm, GivenReadsAreInForm};
ghost use Rattle.world_answers.specs.Runs.{AllRunsAnswerInForm};

/// Says that each answer that goes about, that a client's present attempt was told, that its groups gave so far,
/// or that lines tell, has form: names are keys, holes count below 2^32, and operations have numbers below 2^8. It
/// is so where nothing is in flight, no client is at an attempt, and no line tells of one. Each event of a run of a
/// script in form keeps it, stops, snapshots and aggregations among them, where what targets keep lies on paths with
/// keys, and reads that are asked of running targets, or wait there, have form. For a target answers of its own
/// versions, and what groups' answers join to has form where each has. Nothing is asked of what replicas keep
/// together, nor of what the versions stand for.
pub fn laws_of_answers()
    ensures begin { AnswersBeginInForm }
    ensures served { StoresAnswerInForm }
    ensures joined { AnswersJoinInForm }
    ensures kept { AllEventsKeepAnswersInForm }
    ensures runs { AllRunsAnswerInForm }
{}

/// Says that each read that goes about, or waits at a target, has form: where nothing is in flight and nothing
/// waits, and then by every event of a run of a script in form, whatever targets keep. So have those that are asked
/// of running targets, or wait there; what is right of reads there says so too.
pub fn laws_of_asked_reads()
    ensures begin { AsksBeginInForm }
    ensures kept { AllEventsKeepAsksInForm }
    ensures asked { AsksAreReads }
    ensures right { GivenReadsAreInForm }
{}
