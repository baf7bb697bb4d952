// An attempt is aborted.
ghost use Rattle.std.specs.Prelude.{◌≡◌, false, All, IsTrue};
ghost use Rattle.base_types.specs.declared.entry.Settle.TheVariants.{Abort as abort_step};
ghost use Rattle.vos_image.specs.Kept.{Stored};
ghost use Rattle.vos_pool_base.specs.Tidy.{IfTidy};
ghost use Rattle.vos_pool_settle.specs.Aborting.{IsLeftOver, IsTakenOut};
ghost use Rattle.vos_pool_settle.specs.Settling.{HaveAllOf, IsSettling, OfItsKept};
ghost use Rattle.vos_pool_turns.specs.vos_turns.Turns.{CanBeNamed};

use base_outside::region::Region;
use base_types::id::AttemptId;
use daos_model::durable::Version;
use std::slice::from_ref;
use vos_levels::change::Change;
use vos_pool_base::opened::Opened;
use vos_pool_turns::below::turns::entries::EntryStep;
use vos_pool_turns::pool::turn_pool;
use vos_store::refusal::Stopped;

// Takes the versions of an attempt out that are left of it, each by a quiet commit.
fn take_out<R: Region>(
    opened: Opened<R>,
    attempt: AttemptId,
    versions: &[Version],
) -> (Opened<R>, Result<(), Stopped>)
    requires named { All CanBeNamed versions.now }
    requires running { opened.blocks.undo.stopped ≡ false }
    requires here { IsTrue R.tells → (x : Stored) × IsLeftOver R.extent R.image attempt opened x }
    ensures { IsTakenOut R.tells R.extent R.image R.may_leave R.count R.burns attempt versions.now opened result.0 result.1 }
{
    let mut opened = opened;
    for version in versions {
        let (next, taken) = turn_pool(
            opened,
            Change::Abort(attempt),
            from_ref(version),
            attempt,
            EntryStep::Keep,
        );
        opened = next;
        if taken.is_err() {
            return (opened, taken);
        }
    }
    (opened, Ok(()))
}

/// Aborts an attempt: its entry goes by the first commit, which is the change. Its versions, which these have and
/// which don't count any more, are then taken out.
///
/// # Errors
///
/// `Stopped` comes only where a count of the region rose in this call, or it had stopped before.
pub fn abort<R: Region>(
    opened: Opened<R>,
    attempt: AttemptId,
    versions: &[Version],
) -> (Opened<R>, Result<(), Stopped>)
    requires named { All CanBeNamed versions.now }
    requires tidy { IfTidy R.tells R.extent R.image opened }
    requires all { OfItsKept R.tells R.extent R.image opened (HaveAllOf attempt versions.now) }
    ensures { IsSettling R.tells R.extent R.image R.may_leave R.count R.burns attempt abort_step opened result.0 result.1 }
{
    let _size = opened.blocks.size();
    let (opened, gone) = turn_pool(
        opened,
        Change::Abort(attempt),
        &[],
        attempt,
        EntryStep::Remove,
    );
    if gone.is_err() {
        return (opened, gone);
    }
    take_out(opened, attempt, versions)
}
