// What each target holds of the map, and what all targets stand for together.
ghost use Rattle.model_laws.specs.Targets.{AgreeingTargetsHoldTheMap, AsOfHasDkeys, AsOfIsOfTheSet, FamiliesAgree, FamiliesAreAsOf, FamiliesGiveAsOf, FamiliesHaveDkeys, FamilyMapIsOfLeaders, MembersHoldParts, OpeningsMatch, OwnCellsAreWrittenHere};

/// Says what holds of the targets together. A member of a group whose versions give the map as of an
/// epoch at its own cells holds just its group's part of it, of each object. The map as of an epoch
/// depends on which transactions are decided, not on how they are listed. Each cell of a family's map
/// is that of its leader, so where replicas agree each target's versions match, from above all of them
/// on, what the family stands for. No cell without a dkey holds anything of what a family in form
/// stands for, nor then as of an epoch. A write that says what a target's own cell holds is one of the
/// target's groups. Where each target gives the map as of an epoch at its own cells, the family's map
/// does, and replicas agree; and where all writes are in form, the family's map is the map as of the
/// epoch, at every cell.
pub fn laws_of_targets()
    ensures parts { MembersHoldParts }
    ensures set { AsOfIsOfTheSet }
    ensures leaders { FamilyMapIsOfLeaders }
    ensures agreeing { AgreeingTargetsHoldTheMap }
    ensures here { OwnCellsAreWrittenHere }
    ensures openings { OpeningsMatch }
    ensures give { FamiliesGiveAsOf }
    ensures same { FamiliesAreAsOf }
    ensures agree { FamiliesAgree }
    ensures families { FamiliesHaveDkeys }
    ensures dkeys { AsOfHasDkeys }
{}
