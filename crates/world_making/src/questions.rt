// What is told and asked between targets goes on where snapshots are made and containers aggregated.

ghost use Rattle.world_making.specs.questions.Laws.{AllEventsKeepQuestions, AllHappeningsKeepQuestions, MakingCutsKeepQuestions, MakingKeepsQuestions};

/// What is told and asked between targets (`world_commit`) stays so where a target hears of a snapshot
/// or an aggregation. What leaders named, what Fetches wait for and what idle work inquires stays on its
/// way: such a message is none of these questions, nor an answer to one, nor the news that there is none;
/// nor is what is sent. A leader settles attempts that it decided, whose entries stay, and may learn that
/// another target is down. So it is where such a turn is cut, also in the middle of a prune: what is lost
/// then is lost as in any turn that is cut. So whatever happens keeps it, and each event of a run, beside
/// the facts of attempts as they are before and after it.
pub fn laws_of_questions_making()
    ensures heard { MakingKeepsQuestions }
    ensures cut { MakingCutsKeepQuestions }
    ensures happens { AllHappeningsKeepQuestions }
    ensures events { AllEventsKeepQuestions }
{}
