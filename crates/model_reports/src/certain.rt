// What a legal report tells where clocks leave nothing uncertain.

ghost use Rattle.model_reports.specs.Certain.{NoWriteIsUncertain};

/// Says what a legal report tells of a job without uncertainty, that is with an `epsilon` of 0: no attempt
/// that reads at no snapshot is told to restart for a later write.
pub fn laws_of_certain_clocks()
    ensures { NoWriteIsUncertain }
{}
