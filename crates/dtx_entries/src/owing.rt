// The entries that a target leads, that are committed, and that others may still have to be told of.
ghost use Rattle.std.specs.Prelude.{◌≡◌, ◌<◌, ◌≤◌, true, false, filter, length, vec_len, vec_capacity};
ghost use Rattle.std.specs.List.{list_any};
ghost use Rattle.daos_model.specs.Changes.{is_other};
ghost use Rattle.daos_model.specs.Durables.{entry_key, is_entry_of};
ghost use Rattle.daos_model.specs.Ordered.{is_rising, put};
ghost use Rattle.dtx_entries.specs.Owing.{is_confirmed, is_owing, leads, owing_with};
ghost use Rattle.dtx_entries.specs.Settling.{IsStep, entries_settled};
ghost use Rattle.dtx_entries.specs.Tables.{IsTable};

use crate::{halves, loops};
use base_types::entry::{Entry, Settle};
use base_types::epoch::TargetId;
use base_types::id::AttemptId;

// Whether surely all members but the leader have confirmed a commit.
#[tactic(auto, unfolding(crate::specs::Owing::is_confirmed))]
fn is_confirmed(entry: &Entry) -> bool
    ensures { result ≡ is_confirmed entry.now }
{
    entry.leader < 64 && entry.members == entry.confirmed | 1u64 << entry.leader
}

// Whether it is this target, if there is one, that leads an attempt.
fn leads(me: Option<TargetId>, entry: &Entry) -> bool
    ensures { result ≡ leads me entry.now }
{
    match me {
        None => false,
        Some(me) => entry.leader == me,
    }
}

// Whether a target may still have to tell another member of an entry's commit.
#[tactic(auto, unfolding(crate::specs::Owing::is_owing))]
fn is_owing(me: Option<TargetId>, entry: &Entry) -> bool
    ensures { result ≡ is_owing me entry.now }
{
    leads(me, entry) && entry.committed && !is_confirmed(entry)
}

/// Finds the owing ones anew; there is room for all rows.
pub fn find_owing(me: Option<TargetId>, owing: &mut Vec<Entry>, rows: &[Entry])
    requires { length rows.now ≤ vec_capacity owing.old }
    ensures items { owing.new.items ≡ filter (is_owing me) rows.now }
    ensures capacity { vec_capacity owing.old ≤ vec_capacity owing.new }
{
    owing.clear();
    for row in rows {
        if is_owing(me, row) {
            owing.push(*row).unwrap();
        }
    }
}

// Takes the entry of an attempt as it is now: among the owing ones if it is one.
fn follow(me: Option<TargetId>, owing: &mut Vec<Entry>, entry: Entry)
    requires rising { is_rising entry_key owing.old.items ≡ true }
    requires room { length (filter (is_other entry.attempt) owing.old.items) < vec_capacity owing.old }
    ensures items { owing.new.items ≡ owing_with me entry owing.old.items }
    ensures capacity { vec_capacity owing.old ≤ vec_capacity owing.new }
{
    halves::remove(owing, entry.attempt);
    if is_owing(me, &entry) {
        halves::put(owing, entry);
    }
}

/// Puts an entry among rows that rise, of which none is of its attempt, and among those that are owing.
pub fn put(me: Option<TargetId>, rows: &mut Vec<Entry>, owing: &mut Vec<Entry>, entry: Entry)
    requires is { IsTable me rows.old.items owing.old.items (vec_capacity owing.old) true }
    requires new { list_any (is_entry_of entry.attempt) rows.old.items ≡ false }
    requires room { vec_len rows.old < vec_capacity rows.old }
    requires more { vec_len rows.old < vec_capacity owing.old }
    ensures items { rows.new.items ≡ put entry_key entry rows.old.items }
    ensures is { IsTable me rows.new.items owing.new.items (vec_capacity owing.new) true }
{
    halves::put(rows, entry);
    if is_owing(me, &entry) {
        halves::put(owing, entry);
    }
}

/// Puts an entry among rows in any order, and finds the owing ones anew.
pub fn put_anywhere(
    me: Option<TargetId>,
    rows: &mut Vec<Entry>,
    owing: &mut Vec<Entry>,
    entry: Entry,
)
    requires room { vec_len rows.old < vec_capacity rows.old }
    requires more { vec_len rows.old < vec_capacity owing.old }
    ensures items { rows.new.items ≡ put entry_key entry rows.old.items }
    ensures is { IsTable me rows.new.items owing.new.items (vec_capacity owing.new) false }
{
    loops::put(rows, entry);
    find_owing(me, owing, rows);
}

/// A step of an attempt among rows that rise, and among those that are owing.
#[tactic(auto, unfolding(crate::specs::Settling::entries_settled))]
pub fn settle(
    me: Option<TargetId>,
    rows: &mut Vec<Entry>,
    owing: &mut Vec<Entry>,
    attempt: AttemptId,
    step: Settle,
)
    requires step { IsStep step }
    requires is { IsTable me rows.old.items owing.old.items (vec_capacity owing.old) true }
    ensures items { rows.new.items ≡ entries_settled attempt step rows.old.items }
    ensures is { IsTable me rows.new.items owing.new.items (vec_capacity owing.new) true }
{
    match step {
        Settle::Commit | Settle::Confirm(_) => {
            if let Some(entry) = halves::change(rows, attempt, step) {
                follow(me, owing, entry);
            }
        }
        Settle::Abort | Settle::Forget => {
            halves::remove(rows, attempt);
            halves::remove(owing, attempt);
        }
    }
}

/// A step of an attempt among rows in any order; the owing ones are found anew.
pub fn settle_anywhere(
    me: Option<TargetId>,
    rows: &mut Vec<Entry>,
    owing: &mut Vec<Entry>,
    attempt: AttemptId,
    step: Settle,
)
    requires step { IsStep step }
    requires room { vec_len rows.old ≤ vec_capacity owing.old }
    ensures items { rows.new.items ≡ entries_settled attempt step rows.old.items }
    ensures is { IsTable me rows.new.items owing.new.items (vec_capacity owing.new) false }
{
    loops::settle_rows(rows, attempt, step);
    find_owing(me, owing, rows);
}
