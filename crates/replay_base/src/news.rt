// What a target knows once other targets told it what became of attempts.
ghost use Rattle.std.specs.Prelude.{◌≡◌};
ghost use Rattle.dtx_base.specs.Leading.{forgotten};
ghost use Rattle.world_base.specs.Roles.{told_by, told_of, told_of_all};

use base_types::entry::Verdict;
use base_types::id::AttemptId;
use base_types::items::Items;
use dtx_base::leading::LeaderMemory;
use dtx_table::rows::remove;
use world_base::target::TargetMemory;

// What it knows as a leader: it neither waits for the attempt nor has to settle it.
fn forgotten(attempt: AttemptId, memory: LeaderMemory) -> LeaderMemory
    ensures { result ≡ forgotten attempt memory }
{
    let LeaderMemory {
        undecided,
        decided,
        named,
        down,
    } = memory;
    let mut undecided = undecided.into_vec();
    remove(&mut undecided, attempt);
    let mut decided = decided.into_vec();
    remove(&mut decided, attempt);
    LeaderMemory {
        undecided: Items::from_vec(undecided),
        decided: Items::from_vec(decided),
        named,
        down,
    }
}

// What it knows once it was told what became of an attempt.
fn told_of(attempt: AttemptId, memory: TargetMemory) -> TargetMemory
    ensures { result ≡ told_of attempt memory }
{
    let TargetMemory {
        ticks,
        stamps,
        leader,
        member,
        collecting,
    } = memory;
    TargetMemory {
        ticks,
        stamps,
        leader: forgotten(attempt, leader),
        member,
        collecting,
    }
}

/// What a target knows once it was told what became of these attempts.
pub fn told_of_all(attempts: &[AttemptId], memory: TargetMemory) -> TargetMemory
    ensures { result ≡ told_of_all attempts.now memory }
{
    let mut memory = memory;
    for attempt in attempts {
        memory = told_of(*attempt, memory);
    }
    memory
}

/// What a target knows once a Verdict told it of an attempt.
pub fn told_by(verdict: Verdict, attempt: AttemptId, memory: TargetMemory) -> TargetMemory
    ensures { result ≡ told_by verdict attempt memory }
{
    match verdict {
        Verdict::Committed | Verdict::Aborted => told_of(attempt, memory),
        Verdict::Undecided => memory,
    }
}
