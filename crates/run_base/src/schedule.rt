// What holds where no actor has anything to do.

ghost use Rattle.run_base.specs.Quiet.{QuietHasEnded, QuietSkipsNone};

/// Says what holds where no actor has anything to do in the settling phase: nothing is in flight to an actor,
/// each client waits or is done, no target has idle work, and, in either phase, no
/// client skips.
pub fn laws_of_quiet()
    ensures ended { QuietHasEnded }
    ensures awake { QuietSkipsNone }
{}
