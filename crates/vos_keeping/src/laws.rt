// What becomes of what is kept, by what becomes of the versions and entries that stand in blocks.
ghost use Rattle.vos_keeping.specs.Keeping.{AbortSettles, AllAreKept, CommitSettles, ConfirmSettles, CountedGo, ForgetSettles, RestCounts, UncountedGo};

/// What an attempt's settling makes of what is kept, step by step. An abort is made by its entry, which goes; its versions
/// don't count then.
pub fn settled_is_kept()
    ensures commit { CommitSettles }
    ensures confirm { ConfirmSettles }
    ensures forget { ForgetSettles }
    ensures abort { AbortSettles }
{}

/// What versions that go make of what is kept: nothing where they don't count, and where they do, they go.
pub fn removed_is_kept()
    ensures uncounted { UncountedGo }
    ensures counted { CountedGo }
    ensures rest { RestCounts }
    ensures all { AllAreKept }
{}
