// Of the first rows it is known that they are done; a row that isn't stands behind them.
ghost use Rattle.std.specs.Prelude.{◌≡◌, ◌≤◌, true, length, map, take, vec_len, vec_capacity};
ghost use Rattle.std.specs.List.{list_all};
ghost use Rattle.std.specs.Option.{option_copied};
ghost use Rattle.daos_model.specs.Versions.{done_by, first_blocking};
ghost use Rattle.vos_rows.specs.Tables.{is_done};

use crate::rows::blocks_read;
use base_types::epoch::Epoch;
use base_types::id::AttemptId;
use base_types::path::Path;
use daos_model::durable::{Version, is_same_attempt};

/// The first place from this one on where a row isn't done, or the end.
pub fn next_open(rows: &[Version], from: usize) -> usize
    requires within { from ≤ length rows.now }
    requires done { list_all is_done (take from rows.now) ≡ true }
    ensures within { result ≤ length rows.now }
    ensures done { list_all is_done (take result rows.now) ≡ true }
{
    let mut at = from;
    while at < rows.len() {
        if !rows[at].done {
            return at;
        }
        at += 1;
    }
    at
}

#[tactic(auto, unfolding(daos_model::specs::Versions::done_by))]
fn settle_among(rows: &mut [Version], attempt: AttemptId)
    ensures { rows.new ≡ map (done_by attempt) rows.old }
{
    for row in rows.iter_mut() {
        if is_same_attempt(row.by, attempt) {
            row.done = true;
        }
    }
}

// Makes those of an attempt done. None of them that isn't stands before a place.
fn settle_behind(rows: &mut [Version], settled: usize, attempt: AttemptId)
    requires within { settled ≤ length rows.old }
    requires done { list_all is_done (take settled rows.old) ≡ true }
    ensures rows { rows.new ≡ map (done_by attempt) rows.old }
    ensures done { list_all is_done (take settled rows.new) ≡ true }
{
    settle_among(&mut rows[settled..], attempt)
}

/// Makes the versions of an attempt done. None of them that isn't stands before a place.
pub fn settle_from(rows: &mut Vec<Version>, settled: usize, attempt: AttemptId)
    requires within { settled ≤ vec_len rows.old }
    requires done { list_all is_done (take settled rows.old.items) ≡ true }
    ensures items { rows.new.items ≡ map (done_by attempt) rows.old.items }
    ensures len { vec_len rows.new ≡ vec_len rows.old }
    ensures capacity { vec_capacity rows.new ≡ vec_capacity rows.old }
    ensures done { list_all is_done (take settled rows.new.items) ≡ true }
{
    settle_behind(rows, settled, attempt)
}

// The first of rows that keeps a read below an epoch from its answer.
#[tactic(auto, unfolding(daos_model::specs::Versions::first_blocking))]
fn blocking_among<'a>(rows: &'a [Version], path: &Path, below: Epoch) -> Option<&'a Version>
    ensures { option_copied result ≡ first_blocking path.now below.0 rows.now }
{
    rows.iter().find(|row| blocks_read(row, path, below))
}

/// The first version that keeps a read below an epoch from its answer. None does before a place.
pub fn first_blocking<'a>(
    rows: &'a [Version],
    settled: usize,
    path: &Path,
    below: Epoch,
) -> Option<&'a Version>
    requires within { settled ≤ length rows.now }
    requires done { list_all is_done (take settled rows.now) ≡ true }
    ensures { option_copied result ≡ first_blocking path.now below.0 rows.now }
{
    blocking_among(&rows[settled..], path, below)
}
