// What lines tell of targets of which none stopped.

ghost use Rattle.model_lone.specs.Unstopped.{NoneFollowsNoStop};

/// Says that lines which tell of no stop tell of no opening, and of no target that was given up, where the
/// lines of each target come in their order.
pub fn laws_of_unstopped_lines()
    ensures { NoneFollowsNoStop }
{}
