// What the Marks name that are without an answer.
ghost use Rattle.std.specs.Prelude.{◌≡◌, ◌++◌, filter, map, IfOk, OnOk};
ghost use Rattle.dtx_base.specs.Leading.{answered, attempts_of, entry_attempt, is_named, is_not_named_in, is_owed, naming, naming_to, owed};

use crate::bits::{has_target, is_other_member};
use crate::rows::{is_among, is_same};
use base_types::entry::Entry;
use base_types::epoch::TargetId;
use base_types::id::AttemptId;
use base_types::items::Memory;
use dtx_base::leading::Naming;
use std::alloc::Global;

// Whether a Mark of this incarnation to this member, which names these attempts, isn't the one that
// names an attempt.
#[tactic(auto, unfolding(dtx_base::specs::Leading::is_named_in))]
fn is_not_named_in(naming: &Naming, member: u16, inc: u64, attempts: &[AttemptId]) -> bool
    ensures { result ≡ is_not_named_in member inc attempts.now naming.now }
{
    !(u16::from(naming.member) == member && naming.inc == inc && is_among(attempts, naming.attempt))
}

/// What is still named once the Mark that named these attempts to a member got its answer. The member
/// is told by its number, which may be one that no target bears: then all is.
pub fn unanswered(
    alloc: Global,
    named: &[Naming],
    member: u16,
    inc: u64,
    attempts: &[AttemptId],
) -> Result<Vec<Naming>, Memory>
    ensures { IfOk result (λ left. left.items ≡ answered member inc attempts.now named.now) }
{
    let mut left = Vec::new(alloc);
    for naming in named {
        if is_not_named_in(naming, member, inc, attempts) {
            left.push(*naming)?;
        }
    }
    Ok(left)
}

/// What a Mark names.
pub fn attempts_of(alloc: Global, marks: &[(AttemptId, bool)]) -> Result<Vec<AttemptId>, Memory>
    ensures { IfOk result (λ attempts. attempts.items ≡ attempts_of marks.now) }
{
    let mut attempts = Vec::with_capacity(alloc, marks.len())?;
    for mark in marks {
        attempts.push(mark.0)?;
    }
    Ok(attempts)
}

/// These attempts are named to a member too.
pub fn name(
    named: &mut Vec<Naming>,
    member: TargetId,
    inc: u64,
    attempts: &[AttemptId],
) -> Result<(), Memory>
    ensures { OnOk result (named.new.items ≡ named.old.items ++ map (naming member inc) attempts.now) }
{
    for attempt in attempts {
        named.push(Naming {
            member,
            inc,
            attempt: *attempt,
        })?;
    }
    Ok(())
}

/// An attempt that is named to each of these members.
pub fn names_to(
    alloc: Global,
    members: &[TargetId],
    inc: u64,
    attempt: AttemptId,
) -> Result<Vec<Naming>, Memory>
    ensures { IfOk result (λ named. named.items ≡ map (naming_to inc attempt) members.now) }
{
    let mut named = Vec::with_capacity(alloc, members.len())?;
    for member in members {
        named.push(Naming {
            member: *member,
            inc,
            attempt,
        })?;
    }
    Ok(named)
}

// Whether a Mark that is without an answer names an attempt to a member.
#[tactic(auto, unfolding(dtx_base::specs::Leading::is_named))]
fn is_named(named: &[Naming], member: TargetId, attempt: AttemptId) -> bool
    ensures { result ≡ is_named member attempt named.now }
{
    for naming in named {
        if naming.member == member && is_same(naming.attempt, attempt) {
            return true;
        }
    }
    false
}

/// Whether a member is to be told of a commit.
#[tactic(auto, unfolding(dtx_base::specs::Leading::is_owed))]
pub fn is_owed(entry: &Entry, named: &[Naming], member: TargetId) -> bool
    ensures { result ≡ is_owed member named.now entry.now }
{
    entry.committed
        && is_other_member(entry, member)
        && !has_target(entry.confirmed, member)
        && !is_named(named, member, entry.attempt)
}

// The attempts of the entries of which a member is to be told.
fn owed_of(
    alloc: Global,
    entries: &[Entry],
    named: &[Naming],
    member: TargetId,
) -> Result<Vec<AttemptId>, Memory>
    ensures { IfOk result (λ attempts. attempts.items ≡ map entry_attempt (filter (is_owed member named.now) entries.now)) }
{
    let mut attempts = Vec::new(alloc);
    for entry in entries {
        if is_owed(entry, named, member) {
            attempts.push(entry.attempt)?;
        }
    }
    Ok(attempts)
}

/// The commits that a target is to be told of, in the order of attempts; none where it is down.
#[tactic(auto, unfolding(dtx_base::specs::Leading::owed))]
pub fn owed(
    alloc: Global,
    entries: &[Entry],
    named: &[Naming],
    down: u64,
    member: TargetId,
) -> Result<Vec<AttemptId>, Memory>
    ensures { IfOk result (λ attempts. attempts.items ≡ owed down named.now entries.now member) }
{
    if has_target(down, member) {
        return Ok(Vec::new(alloc));
    }
    owed_of(alloc, entries, named, member)
}
