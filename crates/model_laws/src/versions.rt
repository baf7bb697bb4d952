// What a map of versions depends on.
ghost use Rattle.model_laws.specs.VersionLaws.{LaterVersionsChangeNothing, MapsAreOfTheirWrites, RearrangedAreTheSame, UnsettledChangeNothing};
ghost use Rattle.model_laws.specs.WriteLaws.{WritesActOnCells};

/// Says what holds of every write, and of every map of versions that stand in order, no two with one
/// epoch, number and object. A write tells what each cell holds after it, by what that cell held
/// before. What versions give at a cell depends on which writes stand that say what it holds, and
/// not on how they came about. A version at or above an epoch, or an unsettled one, changes nothing
/// below the epoch.
pub fn laws_of_versions()
    ensures writes { WritesActOnCells }
    ensures set { MapsAreOfTheirWrites }
    ensures rearranged { RearrangedAreTheSame }
    ensures later { LaterVersionsChangeNothing }
    ensures unsettled { UnsettledChangeNothing }
{}
