// Versions that don't count go from an open pool.
ghost use Rattle.std.specs.Prelude.{◌≡◌, false, true, All, IsTrue, OnErr, OnOk};
ghost use Rattle.vos_pool_steps.specs.Quiet.{IsQuietStep};
ghost use Rattle.vos_pool_tidy.specs.Clearing.{IsCleared, IsUncleared};
ghost use Rattle.vos_pool_turns.specs.vos_turns.Turns.{CanBeNamed};
ghost use Rattle.vos_pool_turns.specs.vos_turns.vos_image.Kept.{Stored};

use base_outside::region::Region;
use daos_model::durable::Version;
use std::slice::from_ref;
use vos_counting::prepared::Prepared;
use vos_levels::change::Change;
use vos_pool_stage::below::pool_base::opened::Opened;
use vos_pool_turns::below::turns::entries::EntryStep;
use vos_pool_turns::pool::turn_pool;
use vos_store::refusal::Stopped;

/// Removes those of some versions that don't count, each by a quiet commit. Of prepared entries none lists nodes.
///
/// # Errors
///
/// `Stopped` comes exactly where the pool has stopped then.
pub(crate) fn remove_uncounted<R: Region>(
    opened: Opened<R>,
    prepared: &Prepared,
    versions: &[Version],
) -> (Opened<R>, Result<(), Stopped>)
    requires named { All CanBeNamed versions.now }
    requires running { opened.blocks.undo.stopped ≡ false }
    requires here { IsTrue R.tells → (x : Stored) × IsUncleared R.extent R.image prepared.now versions.now opened x }
    ensures quiet { IsQuietStep R.tells R.extent R.count R.burns R.image R.may_leave opened result.0 }
    ensures cleared { OnOk result.1 (IsTrue R.tells → (x : Stored) → IsUncleared R.extent R.image prepared.now versions.now opened x → IsCleared R.extent R.image x result.0) }
    ensures running { OnOk result.1 (result.0.blocks.undo.stopped ≡ false) }
    ensures stopped { OnErr result.1 (result.0.blocks.undo.stopped ≡ true) }
{
    let mut opened = opened;
    for version in versions {
        if prepared.counts(version) {
            continue;
        }
        let (next, removed) = turn_pool(
            opened,
            Change::Abort(version.by),
            from_ref(version),
            version.by,
            EntryStep::Keep,
        );
        opened = next;
        if removed.is_err() {
            return (opened, removed);
        }
    }
    (opened, Ok(()))
}
