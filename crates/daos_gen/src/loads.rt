// A generated script has keys as its names and keys, is one without snapshots, and asks for no stop.

ghost use Rattle.daos_gen.specs.Laws.{GeneratedScriptsArePlain, GeneratedScriptsAskNoStop, GeneratedScriptsHaveKeys};

/// Says that in each generated script the names of the container and the objects, and the dkeys and
/// akeys where operations have their accesses, are keys: 1 to 64 letters, digits, dots, underscores
/// and dashes; that each is a script without snapshots; and that none asks for a stop.
pub fn laws_of_loads()
    ensures keys { GeneratedScriptsHaveKeys }
    ensures plain { GeneratedScriptsArePlain }
    ensures unstopped { GeneratedScriptsAskNoStop }
{}
