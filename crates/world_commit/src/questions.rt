// What is told and asked between targets that may stop.

ghost use Rattle.world_commit.specs.questions.Laws.{HappeningsKeepQuestions, QuestionsBegin, SweepingKeepsQuestions};

/// Says what holds of questions between targets throughout a run in which targets may stop. Of what a
/// leader named to a member, of what a Fetch waits for, and of what idle work inquires, the question is
/// in flight, or its answer, or the Reset which tells that there is none. An inquiry is down only where
/// the attempt's leader is known to be down. One that was answered undecided is to be told by a Mark, or
/// nothing of the attempt is prepared there; or the attempt is aborted and its leader stopped, which may
/// have told nobody. A leader that waits for an attempt's end waits for a member. It is so where nothing
/// is remembered and nothing in flight; and whatever happens keeps it so, beside the facts of attempts:
/// turns, what is heard of stops, stops in the middle of turns, openings that come about
/// and that fail, targets that are given up, and the loss of what goes to them. What is heard of
/// snapshots and aggregations isn't treated, nor stops in such turns.
pub fn laws_of_questions()
    ensures begin { QuestionsBegin }
    ensures happens { HappeningsKeepQuestions }
    ensures swept { SweepingKeepsQuestions }
{}
