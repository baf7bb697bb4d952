// How an answer is made of those of several groups.
ghost use Rattle.model_laws.specs.Groups.{DkeysAreJoined, DkeysHaveOneGroup, ExistsIsJoined, GroupPartsAreParts, WritesKeepDkeys};

/// Says what holds of every read of an object whose cells several groups hold, each those of its own
/// dkeys. The names of all dkeys, and whether there is a cell, are what the groups' answers give
/// joined, in the order of groups. A read of a dkey, or below it, is answered by its dkey's group
/// alone. Writes in form leave no cell without a dkey.
pub fn laws_of_groups()
    ensures dkeys { DkeysAreJoined }
    ensures exists { ExistsIsJoined }
    ensures single { DkeysHaveOneGroup }
    ensures parts { GroupPartsAreParts }
    ensures kept { WritesKeepDkeys }
{}
