// What a legal report tells of the only client, where none of its attempts was told to restart.

ghost use Rattle.model_lone.specs.Only.{OnlyClientsTellSo};

/// Says what a legal report tells of the only client of a script, where no line tells of a stop and none
/// tells an attempt to restart, whether the client makes snapshots, reads at them, aggregates, or not. Each
/// of its commands has one attempt, in the order of the script. The epochs of those that read at no
/// snapshot rise in the order of the lines. And it is known what became of each attempt: it is committed, or
/// fails by a condition, for want of space, for want of ticks, or, where it reads at a snapshot, for want of
/// that.
pub fn laws_of_only_clients()
    ensures { OnlyClientsTellSo }
{}
