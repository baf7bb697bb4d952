// Rows that go, in place.
ghost use Rattle.std.specs.Prelude.{◌≡◌, filter, vec_capacity};
ghost use Rattle.daos_model.specs.Changes.{is_other, is_other_snap};

use crate::tables::{is_entry_of, is_snap_at};
use base_types::entry::Entry;
use base_types::epoch::Epoch;
use base_types::id::{AttemptId, ContId};
use base_types::snapshot::Snap;
pub use vos_rows::sweeps::remove_pending;

/// Removes the entry of an attempt.
pub fn remove_entry(rows: &mut Vec<Entry>, attempt: AttemptId)
    ensures { rows.new.items ≡ filter (is_other attempt) rows.old.items }
{
    let mut kept = 0;
    for i in 0..rows.len() {
        if !is_entry_of(&rows[i], attempt) {
            rows.swap(kept, i);
            kept += 1;
        }
    }
    rows.truncate(kept);
}

/// Removes a snapshot.
pub fn remove_snap(rows: &mut Vec<Snap>, cont: ContId, epoch: Epoch)
    ensures items { rows.new.items ≡ filter (is_other_snap cont epoch) rows.old.items }
    ensures capacity { vec_capacity rows.new ≡ vec_capacity rows.old }
{
    let mut kept = 0;
    for i in 0..rows.len() {
        if !is_snap_at(&rows[i], cont, epoch) {
            rows.swap(kept, i);
            kept += 1;
        }
    }
    rows.truncate(kept);
}
