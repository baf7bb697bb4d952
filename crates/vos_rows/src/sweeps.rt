// Versions that go, in place.
ghost use Rattle.std.specs.Prelude.{◌≡◌, ◌+◌, ◌<◌, ◌≤◌, ◌++◌, drop, filter, length, take, vec_len, vec_capacity};
ghost use Rattle.daos_model.specs.Changes.{is_out_of_range};
ghost use Rattle.daos_model.specs.Versions.{is_not_pending};
ghost use Rattle.vos_rows.specs.Sweeps.{unmarked};

use crate::rows::{is_in_range, is_pending};
use base_types::epoch::Epoch;
use base_types::id::{AttemptId, ContId};
use daos_model::durable::Version;

/// Removes the versions of an attempt that aren't settled.
pub fn remove_pending(rows: &mut Vec<Version>, attempt: AttemptId)
    ensures items { rows.new.items ≡ filter (is_not_pending attempt) rows.old.items }
    ensures len { vec_len rows.new ≤ vec_len rows.old }
    ensures capacity { vec_capacity rows.new ≡ vec_capacity rows.old }
{
    let mut kept = 0;
    for i in 0..rows.len() {
        if !is_pending(&rows[i], attempt) {
            rows.swap(kept, i);
            kept += 1;
        }
    }
    rows.truncate(kept);
}

/// Removes the versions of a container in a range of epochs.
pub fn remove_range(rows: &mut Vec<Version>, cont: ContId, lo: Epoch, hi: Epoch)
    ensures items { rows.new.items ≡ filter (is_out_of_range cont lo hi) rows.old.items }
    ensures len { vec_len rows.new ≤ vec_len rows.old }
    ensures capacity { vec_capacity rows.new ≡ vec_capacity rows.old }
{
    let mut kept = 0;
    for i in 0..rows.len() {
        if !is_in_range(&rows[i], cont, lo, hi) {
            rows.swap(kept, i);
            kept += 1;
        }
    }
    rows.truncate(kept);
}

// Goes on from one mark to the next: the row there comes behind those that are kept, or is left.
fn sweep_at(rows: &mut Vec<Version>, marks: &[bool], kept: usize, i: usize) -> usize
    requires behind { kept ≤ i }
    requires marks { i < length marks.now }
    requires rows { i < vec_len rows.old }
    ensures behind { result ≤ i + 1 }
    ensures items { take result rows.new.items ++ unmarked (drop (i + 1) marks.now) (drop (i + 1) rows.new.items) ≡ take kept rows.old.items ++ unmarked (drop i marks.now) (drop i rows.old.items) }
    ensures len { vec_len rows.new ≡ vec_len rows.old }
    ensures capacity { vec_capacity rows.new ≡ vec_capacity rows.old }
{
    if marks[i] {
        return kept;
    }
    rows.swap(kept, i);
    kept + 1
}

/// Removes the versions that are marked; each has a mark.
pub fn sweep(rows: &mut Vec<Version>, marks: &[bool])
    requires { length marks.now ≡ vec_len rows.old }
    ensures items { rows.new.items ≡ unmarked marks.now rows.old.items }
    ensures len { vec_len rows.new ≤ vec_len rows.old }
    ensures capacity { vec_capacity rows.new ≡ vec_capacity rows.old }
{
    let mut kept = 0;
    for i in 0..marks.len() {
        kept = sweep_at(rows, marks, kept, i);
    }
    rows.truncate(kept);
}
