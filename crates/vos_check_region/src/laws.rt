// What the faults of logs say.
ghost use Rattle.vos_check_region.specs.Laws.{LogsAreJudged};

/// A log has no fault exactly where the region can be attached to.
pub fn logs_are_judged()
    ensures { LogsAreJudged }
{}
