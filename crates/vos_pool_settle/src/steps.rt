// The steps of an attempt that are made by one commit.
ghost use Rattle.std.specs.Prelude.{◌≡◌, ◌<◌, All};
ghost use Rattle.base_types.specs.declared.entry.Settle.TheVariants.{Commit as commit_step, Confirm as confirm_step, Forget as forget_step};
ghost use Rattle.vos_pool_base.specs.Tidy.{IfTidy};
ghost use Rattle.vos_pool_settle.specs.Settling.{HaveAllOf, IsSettling, OfItsKept};
ghost use Rattle.vos_store.specs.Conditions.{CanSettle};
ghost use Rattle.vos_pool_turns.specs.vos_turns.Turns.{CanBeNamed};

use base_outside::region::Region;
use base_types::epoch::TargetId;
use base_types::id::AttemptId;
use daos_model::durable::Version;
use vos_levels::change::Change;
use vos_pool_base::opened::Opened;
use vos_pool_turns::below::turns::entries::EntryStep;
use vos_pool_turns::pool::turn_pool;
use vos_store::refusal::Stopped;

/// Commits an attempt: its versions, which these have, are done, and its entry is committed, all of that by one commit.
///
/// # Errors
///
/// `Stopped` comes only where a count of the region rose in this call, or it had stopped before.
pub fn commit<R: Region>(
    opened: Opened<R>,
    attempt: AttemptId,
    versions: &[Version],
) -> (Opened<R>, Result<(), Stopped>)
    requires named { All CanBeNamed versions.now }
    requires tidy { IfTidy R.tells R.extent R.image opened }
    requires all { OfItsKept R.tells R.extent R.image opened (HaveAllOf attempt versions.now) }
    ensures { IsSettling R.tells R.extent R.image R.may_leave R.count R.burns attempt commit_step opened result.0 result.1 }
{
    let _size = opened.blocks.size();
    turn_pool(
        opened,
        Change::Commit(attempt),
        versions,
        attempt,
        EntryStep::Commit,
    )
}

/// Confirms a member of an attempt, by one commit. The member's number is below 64.
///
/// # Errors
///
/// `Stopped` comes only where a count of the region rose in this call, or it had stopped before.
pub fn confirm<R: Region>(
    opened: Opened<R>,
    attempt: AttemptId,
    target: TargetId,
) -> (Opened<R>, Result<(), Stopped>)
    requires target { target < 64 }
    requires tidy { IfTidy R.tells R.extent R.image opened }
    requires here { OfItsKept R.tells R.extent R.image opened (CanSettle attempt (confirm_step target)) }
    ensures { IsSettling R.tells R.extent R.image R.may_leave R.count R.burns attempt (confirm_step target) opened result.0 result.1 }
{
    let _size = opened.blocks.size();
    turn_pool(
        opened,
        Change::Commit(attempt),
        &[],
        attempt,
        EntryStep::Confirm(target),
    )
}

/// Forgets an attempt that is committed: its entry goes, by one commit.
///
/// # Errors
///
/// `Stopped` comes only where a count of the region rose in this call, or it had stopped before.
pub fn forget<R: Region>(opened: Opened<R>, attempt: AttemptId) -> (Opened<R>, Result<(), Stopped>)
    requires tidy { IfTidy R.tells R.extent R.image opened }
    requires here { OfItsKept R.tells R.extent R.image opened (CanSettle attempt forget_step) }
    ensures { IsSettling R.tells R.extent R.image R.may_leave R.count R.burns attempt forget_step opened result.0 result.1 }
{
    let _size = opened.blocks.size();
    turn_pool(
        opened,
        Change::Commit(attempt),
        &[],
        attempt,
        EntryStep::Remove,
    )
}
