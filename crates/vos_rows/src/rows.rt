// What is asked of one version.
ghost use Rattle.std.specs.Prelude.{◌≡◌};
ghost use Rattle.daos_model.specs.Changes.{is_in_range};
ghost use Rattle.daos_model.specs.Versions.{blocks_read, is_between, is_pending};

use base_types::epoch::Epoch;
use base_types::id::{AttemptId, ContId};
use base_types::path::Path;
use daos_model::durable::{Version, is_same_attempt};

/// Whether a version is of an attempt, and not settled.
#[tactic(auto, unfolding(daos_model::specs::Versions::is_pending))]
pub fn is_pending(row: &Version, attempt: AttemptId) -> bool
    ensures { result ≡ is_pending attempt row.now }
{
    is_same_attempt(row.by, attempt) && !row.done
}

/// Whether a version is of a container, and its epoch is from `lo` to `hi`.
#[tactic(auto, unfolding(daos_model::specs::Changes::is_in_range))]
pub fn is_in_range(row: &Version, cont: ContId, lo: Epoch, hi: Epoch) -> bool
    ensures { result ≡ is_in_range cont lo hi row.now }
{
    row.write.path().cont.0 == cont.0 && lo.0 <= row.epoch.0 && row.epoch.0 <= hi.0
}

/// Whether a version keeps a read below an epoch from its answer.
#[tactic(auto, unfolding(daos_model::specs::Versions::blocks_read))]
pub fn blocks_read(row: &Version, path: &Path, below: Epoch) -> bool
    ensures { result ≡ blocks_read path.now below.0 row.now }
{
    !row.done && row.epoch.0 < below.0 && path.overlaps(row.write.path())
}

/// Whether a version is on a path, above one epoch and up to another.
#[tactic(auto, unfolding(daos_model::specs::Versions::is_between))]
pub fn is_between(row: &Version, path: &Path, above: Epoch, upto: Epoch) -> bool
    ensures { result ≡ is_between path.now above.0 upto.0 row.now }
{
    above.0 < row.epoch.0 && row.epoch.0 <= upto.0 && path.overlaps(row.write.path())
}
