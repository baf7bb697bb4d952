// The opening of a run over stores that are sound together.
#![tactic(auto)]

mod attempts;
pub mod below;
mod each;
pub mod opening;
mod resolving;
mod snaps;
pub mod stop;

ghost use Rattle.run_opening.specs.Laws.{EnlistingKeepsFloors, EnlistingKeepsForm, EnlistingKeepsOpenings, EnlistingKeepsSound, OpenedKnowContainers, OpeningsKeepFloors, OpeningsKeepForm, OpeningsKeepLeases, OpeningsKeepSound, OpeningsKeepWhatStands, OpeningsSettleAll, ReopeningKeepsFloors, ReopeningKeepsSound, UnusedAreFloored, UnusedAreSound, UnusedOpenAsTheyAre, UnusedStandForNothing};

/// Says what the opening of a run makes of what all targets keep. Nothing is left to settle: all versions
/// are done, and there are no entries. They stand for exactly what they stood for before, but for the
/// snapshots that the script drops; leases stay, and sound targets stay sound and in form, with each frozen
/// snapshot at or below the floor of its container.
pub fn laws_of_openings()
    ensures settled { OpeningsSettleAll }
    ensures stands { OpeningsKeepWhatStands }
    ensures leases { OpeningsKeepLeases }
    ensures sound { OpeningsKeepSound }
    ensures floors { OpeningsKeepFloors }
    ensures form { OpeningsKeepForm }
{}

/// Says that containers that are enlisted before the opening change nothing of this: sound targets stay
/// sound, with each frozen snapshot at or below its floor, and in form where none has more than 256
/// containers then; the run's opening is the same; and what is enlisted is so after the opening.
pub fn laws_of_enlisting()
    ensures sound { EnlistingKeepsSound }
    ensures floors { EnlistingKeepsFloors }
    ensures form { EnlistingKeepsForm }
    ensures openings { EnlistingKeepsOpenings }
    ensures known { OpenedKnowContainers }
{}

/// Says that what is sound together stays so where the stores are opened again between two runs, with each
/// frozen snapshot at or below its floor.
pub fn laws_of_reopening()
    ensures sound { ReopeningKeepsSound }
    ensures floors { ReopeningKeepsFloors }
{}

/// Says that targets that were never used are sound, and hold no snapshot; that the opening leaves them as
/// they are once containers are enlisted; and that they stand for nothing.
pub fn laws_of_unused()
    ensures sound { UnusedAreSound }
    ensures floored { UnusedAreFloored }
    ensures opened { UnusedOpenAsTheyAre }
    ensures stands { UnusedStandForNothing }
{}
