// The lines of a run tell of each command of each client in turn, and of its answers as they were given.

ghost use Rattle.world_letters.specs.lines.Laws.{LastLinesAreInTurn, LinesEndAsAnswered};

/// Says what holds of lines that tell of each client what it has told. Each attempt that has a line ended as
/// it was answered; and when all clients are done, the lines of each stand in the order of its commands and
/// attempts, all of them.
pub fn laws_of_lines()
    ensures answered { LinesEndAsAnswered }
    ensures in_turn { LastLinesAreInTurn }
{}
