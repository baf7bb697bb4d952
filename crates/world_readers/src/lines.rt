// What lines tell of attempts, where they tell of each client what it has told.

ghost use Rattle.world_readers.specs.lines.Endings.{LinesEndWell};
ghost use Rattle.world_readers.specs.lines.InTurnLaws.{LinesBeginInTurn};

/// Says that where the lines of a world tell of each client what it has told, the attempts of each client begin those
/// of its commands in turn: its first commands have all of theirs, and the next one has some, each of which was told to
/// restart, and fewer than are allowed. And each attempt told of ended as its answers and conditions say: one that is
/// committed has all its answers in order, and its conditions hold; one that failed shows the condition that is false
/// behind those that hold; of any other all conditions told hold. Nothing is said of what targets kept at the opening.
pub fn laws_of_lines()
    ensures in_turn { LinesBeginInTurn }
    ensures ends { LinesEndWell }
{}
