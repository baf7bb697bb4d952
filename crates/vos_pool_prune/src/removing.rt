// Versions go from an open pool, one after another.
ghost use Rattle.std.specs.Prelude.{◌≡◌, ◌&&◌, false, All, length};
ghost use Rattle.daos_model.specs.Prunes.{is_punch};
ghost use Rattle.vos_pool_settle.specs.vos_pool_base.Tidy.{IfTidy};
ghost use Rattle.vos_pool_prune.specs.Changing.{IsPartChange};
ghost use Rattle.vos_pool_prune.specs.Order.{chosen, in_turn, is_of, those_of};
ghost use Rattle.vos_pool_prune.specs.Removals.{CutRemovals, without_versions};
ghost use Rattle.vos_pool_settle.specs.vos_turns.Turns.{CanBeNamed};

use base_outside::region::Region;
use base_types::operation::Write;
use daos_model::durable::Version;
use vos_pool_settle::below::pool_base::opened::Opened;
use vos_pool_settle::remove::remove_version;
use vos_store::refusal::Stopped;

// Whether a version is a punch.
fn is_punch(version: &Version) -> bool
    ensures { result ≡ is_punch version.now.write }
{
    matches!(
        version.write,
        Write::PunchObject(_) | Write::PunchDkey(_) | Write::PunchAkey(_)
    )
}

// Whether a version that is marked, or isn't, is one of the punches that go, or of the updates.
fn is_one_of(version: &Version, marked: bool, punches: bool) -> bool
    ensures { result ≡ (marked && is_of punches version.now) }
{
    marked && is_punch(version) == punches
}

// Of the versions that are marked removes the punches, or the updates, each by a commit of its own.
fn remove_those<R: Region>(
    opened: Opened<R>,
    versions: &[Version],
    marks: &[bool],
    punches: bool,
) -> (Opened<R>, Result<(), Stopped>)
    requires named { All CanBeNamed versions.now }
    requires each { length marks.now ≡ length versions.now }
    requires tidy { IfTidy R.tells R.extent R.image opened }
    requires running { opened.blocks.undo.stopped ≡ false }
    ensures { IsPartChange R.tells R.extent R.image R.may_leave R.count R.burns (without_versions (those_of punches (chosen marks.now versions.now))) (CutRemovals (those_of punches (chosen marks.now versions.now))) opened result.0 result.1 }
{
    let mut opened = opened;
    for i in 0..versions.len() {
        let version = &versions[i];
        if !is_one_of(version, marks[i], punches) {
            continue;
        }
        let (next, removed) = remove_version(opened, version);
        opened = next;
        if removed.is_err() {
            return (opened, removed);
        }
    }
    (opened, Ok(()))
}

/// Removes the versions that are marked and done, each by a commit of its own, which gives back a block at least. The
/// updates go first, and then the punches, both in the order given. A version that isn't done stays.
///
/// # Errors
///
/// `Stopped` comes only where a count of the region rose in this call, or it had stopped before. The first of the
/// versions, in the order in which they go, may be gone then.
pub fn remove_versions<R: Region>(
    opened: Opened<R>,
    versions: &[Version],
    marks: &[bool],
) -> (Opened<R>, Result<(), Stopped>)
    requires named { All CanBeNamed versions.now }
    requires each { length marks.now ≡ length versions.now }
    requires tidy { IfTidy R.tells R.extent R.image opened }
    ensures { IsPartChange R.tells R.extent R.image R.may_leave R.count R.burns (without_versions (in_turn (chosen marks.now versions.now))) (CutRemovals (in_turn (chosen marks.now versions.now))) opened result.0 result.1 }
{
    if opened.blocks.is_stopped() {
        return (opened, Err(Stopped));
    }
    let (opened, updates) = remove_those(opened, versions, marks, false);
    if updates.is_err() {
        return (opened, updates);
    }
    remove_those(opened, versions, marks, true)
}
