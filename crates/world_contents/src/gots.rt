// What clients were told is what targets served.

ghost use Rattle.world_contents.specs.gots.Right.{JoinsAreRight, LinesAreRight, NothingIsToldBefore, NothingIsToldOfNone, ReportsAreRight, ToldIsRight};

/// Says what follows where all that was served was answered right. What the groups of a read gave, joined,
/// is its answer on the map that its attempt reads: as of the epoch, or that of a snapshot; so every answer
/// that an attempt was told is right, and so is every condition. An attempt without an epoch was told nothing,
/// nor was one at a snapshot that isn't kept. So the lines of a script in form, and a whole report, tell what
/// the decided transactions give, and what is kept of snapshots.
pub fn laws_of_answers()
    ensures joins { JoinsAreRight }
    ensures told { ToldIsRight }
    ensures nothing { NothingIsToldBefore }
    ensures unkept { NothingIsToldOfNone }
    ensures lines { LinesAreRight }
    ensures reports { ReportsAreRight }
{}
