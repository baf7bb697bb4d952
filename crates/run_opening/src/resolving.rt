// Which attempts are resolved by the entries of all targets.
ghost use Rattle.std.specs.Prelude.{◌≡◌, ◌+◌, ◌≤◌, ◌<◌, length, map, drop, nat_lt, ◌^◌, ◌&&◌, ◌||◌, ◌==◌, not, Some};
ghost use Rattle.base_types.specs.declared.entry.Settle.{Settle};
ghost use Rattle.daos_model.specs.Durables.{entry_of};
ghost use Rattle.daos_model.specs.Family.{all_hold_from, holds, is_in_field, is_resolved_entry, is_within};
ghost use Rattle.run_opening.specs.Steps.{bare, ending, resolved_by};

use base_types::entry::{Entries, Entry, Settle};
use base_types::id::AttemptId;
use dtx_table::bits::has_target;
use dtx_table::rows::find;

// Whether an attempt has an entry among these.
#[tactic(auto, unfolding(daos_model::specs::Durables::entry_of))]
fn holds(entries: &[Entry], attempt: AttemptId) -> bool
    ensures { result ≡ holds attempt (bare entries.now) }
{
    find(entries, attempt).is_some()
}

// Whether an entry names a target, as a member or as the leader.
#[tactic(auto, using(crate::proofs::Bits::field_is))]
fn names(entry: &Entry, target: u8) -> bool
    ensures { result ≡ (is_in_field entry.now.members target || entry.now.leader == target) }
{
    has_target(entry.members, target) || entry.leader == target
}

// Whether a target with these entries holds an entry's attempt, or isn't named by it.
fn is_held(entries: &[Entry], entry: &Entry, target: u8) -> bool
    ensures { result ≡ (holds entry.now.attempt (bare entries.now) || not (is_in_field entry.now.members target || entry.now.leader == target)) }
{
    holds(entries, entry.attempt) || !names(entry, target)
}

// Whether all targets that an entry names hold its attempt.
fn all_hold(all: &[Entries], entry: &Entry) -> bool
    requires few { length all.now ≤ 64 }
    ensures { result ≡ all_hold_from 0 entry.now (map bare all.now) }
{
    for t in 0..all.len() {
        if !is_held(all[t].as_slice(), entry, t as u8) {
            return false;
        }
    }
    true
}

// Whether an entry names targets of so many alone.
fn is_within(targets: usize, entry: &Entry) -> bool
    requires few { targets ≤ 64 }
    ensures { result ≡ (nat_lt entry.now.leader targets && nat_lt entry.now.members (2 ^ targets)) }
{
    let members = entry.members;
    usize::from(entry.leader) < targets && (targets == 64 || members < 1u64 << targets)
}

// Whether the entry is resolved that a target with these entries has of an attempt: it is committed, or its leader and all its members
// hold the attempt.
#[tactic(auto, unfolding(daos_model::specs::Durables::entry_of))]
fn is_resolved_at(all: &[Entries], entries: &[Entry], attempt: AttemptId) -> bool
    requires few { length all.now ≤ 64 }
    ensures { result ≡ is_resolved_entry (map bare all.now) (entry_of (bare entries.now) attempt) }
{
    match find(entries, attempt) {
        None => false,
        Some(entry) => {
            entry.committed || (is_within(all.len(), &entry) && all_hold(all, &entry))
        }
    }
}

/// Whether an attempt is resolved by the entries of all targets, which are in their order.
#[tactic(auto, unfolding(daos_model::specs::Family::resolved))]
pub fn is_resolved(all: &[Entries], attempt: AttemptId) -> bool
    requires few { length all.now ≤ 64 }
    ensures { result ≡ resolved_by all.now attempt }
{
    for entries in all {
        if is_resolved_at(all, entries.as_slice(), attempt) {
            return true;
        }
    }
    false
}

/// How a prepared attempt ends: it is committed where it is resolved, and else aborted.
pub fn ending(resolved: bool) -> Settle
    ensures { result ≡ ending resolved }
{
    if resolved {
        Settle::Commit
    } else {
        Settle::Abort
    }
}
