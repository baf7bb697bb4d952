// That the versions which targets keep stay in form.

ghost use Rattle.world_readers.specs.forms.Events.{AllEventsKeepForm, AttemptsPrepareOwn};

/// Says that each version which a target keeps is of a write in form, if it was so before: every event of a run keeps
/// it so, where what is asked of running targets is right, and Prepares carry writes of their attempts. That they do is
/// among the facts of attempts. Nothing is said of whose the versions are, or of what they stand for.
pub fn laws_of_forms()
    ensures kept { AllEventsKeepForm }
    ensures prepares { AttemptsPrepareOwn }
{}
