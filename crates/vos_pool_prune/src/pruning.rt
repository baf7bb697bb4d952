// A container of an open pool is pruned, or versions of it are discarded.
ghost use Rattle.std.specs.Prelude.{◌≡◌, ◌≤◌, ◌+◌, true, All, OnOk, filter, length};
ghost use Rattle.daos_model.specs.Changes.{discarded, is_in_range, pruned};
ghost use Rattle.daos_model.specs.Prunes.{is_going};
ghost use Rattle.pmem_alloc.specs.Blocks.{free_count};
ghost use Rattle.vos_pool_settle.specs.vos_pool_base.Tidy.{IfTidy};
ghost use Rattle.vos_pool_prune.specs.Changing.{IsPartChange};
ghost use Rattle.vos_pool_prune.specs.Order.{chosen};
ghost use Rattle.vos_pool_settle.specs.Settling.{OfItsKept};
ghost use Rattle.vos_pool_settle.specs.vos_turns.Turns.{CanBeNamed};
ghost use Rattle.vos_store.specs.Calls.{CutDiscard, CutPrune, going_count};
ghost use Rattle.vos_store.specs.Conditions.{CanPrune};

use crate::marking::mark;
use crate::removing::remove_versions;
use base_outside::region::Region;
use base_types::epoch::Epoch;
use base_types::id::ContId;
use daos_model::durable::Version;
use vos_pool_settle::below::pool_base::opened::Opened;
use vos_store::refusal::Stopped;

/// Prunes a container up to an epoch. The versions that go are those of these that are marked. The first commit notes the
/// epoch, and then the versions go, each by a commit of its own, the updates before the punches.
///
/// # Errors
///
/// `Stopped` comes only where a count of the region rose in this call, or it had stopped before. Some, all or none of
/// the versions may be gone then.
pub fn prune<R: Region>(
    opened: Opened<R>,
    cont: ContId,
    upto: Epoch,
    number: u32,
    versions: &[Version],
    marks: &[bool],
) -> (Opened<R>, Result<(), Stopped>)
    requires named { All CanBeNamed versions.now }
    requires each { length marks.now ≡ length versions.now }
    requires tidy { IfTidy R.tells R.extent R.image opened }
    requires here { OfItsKept R.tells R.extent R.image opened (CanPrune cont upto) }
    requires all { OfItsKept R.tells R.extent R.image opened (λ d. chosen marks.now versions.now ≡ filter (is_going cont upto d.versions d.snaps) d.versions) }
    ensures pruned { IsPartChange R.tells R.extent R.image R.may_leave R.count R.burns (pruned cont upto number) (CutPrune cont upto number) opened result.0 result.1 }
    ensures space { OnOk result.1 (OfItsKept R.tells R.extent R.image opened (λ d. free_count opened.blocks + going_count cont upto d ≤ free_count result.0.blocks)) }
{
    let _size = opened.blocks.size();
    let mut opened = opened;
    let marked = mark(&mut opened, cont, upto, number);
    if marked.is_err() {
        return (opened, marked);
    }
    remove_versions(opened, versions, marks)
}

/// Discards the versions of a container whose epochs lie in a range: those of these that are marked, and that are done.
/// Each goes by a commit of its own, the updates before the punches.
///
/// # Errors
///
/// `Stopped` comes only where a count of the region rose in this call, or it had stopped before. Some, all or none of
/// the versions may be gone then.
pub fn discard<R: Region>(
    opened: Opened<R>,
    cont: ContId,
    lo: Epoch,
    hi: Epoch,
    versions: &[Version],
    marks: &[bool],
) -> (Opened<R>, Result<(), Stopped>)
    requires named { All CanBeNamed versions.now }
    requires each { length marks.now ≡ length versions.now }
    requires tidy { IfTidy R.tells R.extent R.image opened }
    requires done { All (λ v. v.done ≡ true) (chosen marks.now versions.now) }
    requires all { OfItsKept R.tells R.extent R.image opened (λ d. chosen marks.now versions.now ≡ filter (is_in_range cont lo hi) d.versions) }
    ensures { IsPartChange R.tells R.extent R.image R.may_leave R.count R.burns (discarded cont lo hi) (CutDiscard cont lo hi) opened result.0 result.1 }
{
    let _size = opened.blocks.size();
    remove_versions(opened, versions, marks)
}
