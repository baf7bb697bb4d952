// What a read's answer depends on.
ghost use Rattle.model_laws.specs.ReadLaws.{AnswerIsOfItsPath, SameMapsAnswerAlike};

/// Says what holds of every read. Its answer depends on what a map holds at the cells under its path
/// alone, whatever their order and however often a cell stands in the list. So two maps that hold the
/// same at every cell answer every read alike.
pub fn laws_of_reads()
    ensures path { AnswerIsOfItsPath }
    ensures same { SameMapsAnswerAlike }
{}
