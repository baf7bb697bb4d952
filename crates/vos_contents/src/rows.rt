// Versions in a row: what they are kept as, found and read.
ghost use Rattle.std.specs.Prelude.{◌≡◌, true, find, map, IfOk, vec_len};
ghost use Rattle.std.specs.List.{list_all};
ghost use Rattle.std.specs.Option.{option_copied};
ghost use Rattle.daos_model.specs.Durables.{is_version_in_form};
ghost use Rattle.daos_model.specs.Forms.{AreWritesInForm};
ghost use Rattle.daos_model.specs.Versions.{done_by, first_blocking, version_of, versions_of};
ghost use Rattle.vos_store.specs.Answers.{is_open_in};

use base_types::entry::Entry;
use base_types::epoch::Epoch;
use base_types::id::{AttemptId, ContId};
use base_types::items::{Memory, TryCopy};
use base_types::operation::MinorWrite;
use base_types::path::Path;
use daos_model::durable::{Version, is_same_attempt};
use std::alloc::Global;
use vos_rows::rows::{blocks_read, is_in_range};

// What a write of an entry is kept as.
fn version_of(entry: &Entry, write: &MinorWrite) -> Result<Version, Memory>
    ensures { IfOk result (λ version. version ≡ version_of entry.now write.now) }
{
    Ok(Version {
        epoch: entry.epoch,
        minor: write.minor,
        by: entry.attempt,
        done: false,
        write: write.write.copy()?,
    })
}

// What the writes of an entry are kept as.
fn versions_of(alloc: Global, entry: &Entry, writes: &[MinorWrite]) -> Result<Vec<Version>, Memory>
    ensures { IfOk result (λ rows. rows.items ≡ versions_of entry.now writes.now) }
{
    let mut rows = Vec::new(alloc);
    for write in writes {
        rows.push(version_of(entry, write)?)?;
    }
    Ok(rows)
}

/// What the writes of an entry, which are in form, are kept as.
pub fn versions_in_form(
    alloc: Global,
    entry: &Entry,
    writes: &[MinorWrite],
) -> Result<Vec<Version>, Memory>
    requires { AreWritesInForm writes.now }
    ensures versions { IfOk result (λ rows. rows.items ≡ versions_of entry.now writes.now) }
    ensures form { IfOk result (λ rows. list_all is_version_in_form rows.items ≡ true) }
{
    versions_of(alloc, entry, writes)
}

#[tactic(auto, unfolding(vos_store::specs::Answers::is_open_in))]
fn is_open_in(row: &Version, cont: ContId, lo: Epoch, hi: Epoch) -> bool
    ensures { result ≡ is_open_in cont lo hi row.now }
{
    is_in_range(row, cont, lo, hi) && !row.done
}

/// The first version that keeps a read below an epoch from its answer.
#[tactic(auto, unfolding(daos_model::specs::Versions::first_blocking))]
pub fn first_blocking<'a>(rows: &'a [Version], path: &Path, below: Epoch) -> Option<&'a Version>
    ensures { option_copied result ≡ first_blocking path.now below.0 rows.now }
{
    rows.iter().find(|row| blocks_read(row, path, below))
}

/// The first version of a container in a range of epochs that isn't settled.
pub fn first_open_in(rows: &[Version], cont: ContId, lo: Epoch, hi: Epoch) -> Option<&Version>
    ensures { option_copied result ≡ find (is_open_in cont lo hi) rows.now }
{
    rows.iter().find(|row| is_open_in(row, cont, lo, hi))
}

#[tactic(auto, unfolding(daos_model::specs::Versions::done_by))]
fn settle_among(rows: &mut [Version], attempt: AttemptId)
    ensures { rows.new ≡ map (done_by attempt) rows.old }
{
    for row in rows.iter_mut() {
        if is_same_attempt(row.by, attempt) {
            row.done = true;
        }
    }
}

/// Makes the versions of an attempt done.
pub fn settle_all(rows: &mut Vec<Version>, attempt: AttemptId)
    ensures items { rows.new.items ≡ map (done_by attempt) rows.old.items }
    ensures len { vec_len rows.new ≡ vec_len rows.old }
{
    settle_among(rows, attempt)
}
