// That each answer told is of its read's kind, whatever targets kept at the opening.

ghost use Rattle.world_readers.specs.kinds.Events.{AllEventsKeepFittingAnswers, FittingAnswersBegin};

/// Says that of an attempt that waits for the answer of a read at most one letter goes about, or one Fetch that waits
/// at a target, which is of that read, and nothing of any other; and that all that lines tell of answers and conditions
/// fits: answers are of the kinds of their reads, and conditions are those of operations that have one. So it is
/// before clients' first turns. Every event of a run keeps it so, where lines tell of each client what it has told,
/// what is asked of running targets is right, and the versions that targets keep are in form. Nothing is said of which
/// versions those are.
pub fn laws_of_kinds()
    ensures begin { FittingAnswersBegin }
    ensures kept { AllEventsKeepFittingAnswers }
{}
