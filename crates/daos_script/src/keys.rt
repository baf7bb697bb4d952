// The keys and names of a script that some text stands for are keys.

ghost use Rattle.daos_script.specs.States.{ScriptsReadHaveKeys};

/// Says that the names of containers and objects of a script that some text stands for are keys, and
/// so are the names of the snapshots that it makes, and the dkeys and akeys where its operations have
/// their accesses: 1 to 64 letters, digits, dots, underscores and dashes.
pub fn laws_of_keys()
    ensures read { ScriptsReadHaveKeys }
{}
