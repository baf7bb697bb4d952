// What becomes of a target's versions while an attempt is stored, and once it is decided or aborted.
ghost use Rattle.model_laws.specs.Deciding.{AbortsKeepMatches, HoldersKeepMatches, OthersKeepMatches, SettlesKeepMatches, StoresKeepMatches};

/// Says what holds of a target's versions that match the decided transactions. Versions of an
/// attempt that are stored and don't count yet change nothing of what counts, nor do those that go
/// because it was aborted, nor those that are made done once they count. When it is decided, the
/// versions stay and more of them count: at a target that holds it they match with it, and at one
/// where none of its writes says what an own cell holds they go on to match.
pub fn laws_of_decisions()
    ensures store { StoresKeepMatches }
    ensures abort { AbortsKeepMatches }
    ensures settle { SettlesKeepMatches }
    ensures holders { HoldersKeepMatches }
    ensures others { OthersKeepMatches }
{}
