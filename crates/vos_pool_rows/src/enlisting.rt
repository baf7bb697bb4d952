// Containers that come to a pool.
ghost use Rattle.std.specs.Prelude.{◌≡◌, ◌≤◌, false, length, IfErr, IfOk, OnOk, Some};
ghost use Rattle.daos_model.specs.declared.durable.Durable.{Durable};
ghost use Rattle.daos_model.specs.Changes.{enlisted};
ghost use Rattle.vos_pool_base.specs.Pool.{ChangesTo, IfRunning, StopsBy, kept_of, may_of, most_changes};
ghost use Rattle.vos_pool_base.specs.Tidy.{IfTidy, LeavesBut};
ghost use Rattle.vos_pool_base.specs.vos_tables.Changes.{AllFit, all_changed};
ghost use Rattle.vos_pool_base.specs.vos_tables.Kept.{answer_of};
ghost use Rattle.vos_pool_held.specs.Resting.{IfAtRest};
ghost use Rattle.vos_pool_held.specs.State.{held_durable, held_may, held_state};
ghost use Rattle.vos_store.specs.Answers.{IsManyShown, enlists};
ghost use Rattle.vos_store.specs.Calls.{Answers, Makes, Turns};
ghost use Rattle.vos_store.specs.Refusals.{enlist_open, enlist_stop, says};

use base_outside::region::Region;
use base_types::id::ContId;
use std::alloc::Global;
use vos_pool_base::below::tables::change::Change;
use vos_pool_base::opened::Opened;
use vos_pool_held::held::Held;
use vos_pool_held::resting::free_blocks;
use vos_store::refusal::{EnlistNo, Stopped};

// The changes of the region by which the containers come that aren't there.
fn plan<R: Region>(
    opened: &Opened<R>,
    alloc: Global,
    conts: &[ContId],
) -> Result<Vec<Change>, EnlistNo>
    ensures fits { IfOk result (λ changes. AllFit opened.now.table changes.items) }
    ensures few { IfOk result (λ changes. length changes.items ≤ 256) }
    ensures answer { opened.now.blocks.undo.stopped ≡ false → (d : Durable) → kept_of R.tells R.extent R.image opened.now ≡ Some d
        → says enlist_open result ≡ false → answer_of result ≡ enlists conts.now d }
    ensures many { IfErr result IsManyShown }
    ensures running { says enlist_stop result ≡ false }
    ensures makes { IfOk result (λ changes. ChangesTo (enlisted conts.now) (kept_of R.tells R.extent R.image opened.now) opened.now.table
        (all_changed changes.items opened.now.table)) }
{
    let _size = opened.blocks.size();
    opened.tables.plan_enlist(alloc, conts)
}

// Writes changes, all of them by one commit or none.
fn write<R: Region>(opened: &mut Opened<R>, changes: &[Change]) -> Result<(), EnlistNo>
    requires few { length changes.now ≤ most_changes }
    requires fits { AllFit opened.old.table changes.now }
    ensures size { R.extent opened.new.blocks.undo.region ≡ R.extent opened.old.blocks.undo.region }
    ensures free { opened.new.blocks.map ≡ opened.old.blocks.map }
    ensures left { LeavesBut R.tells R.extent R.may_leave 0 opened.old opened.new }
    ensures tidy { OnOk result (IfTidy R.tells R.extent R.image opened.old → IfTidy R.tells R.extent R.image opened.new) }
    ensures rests { IfAtRest R.tells R.image R.may_leave opened.new }
    ensures stopped { IfErr result (λ e. e ≡ EnlistNo.Stopped) }
    ensures stops { StopsBy (says enlist_stop result) opened.old.blocks.undo.stopped opened.new.blocks.undo.stopped (R.count opened.old.blocks.undo.region) (R.count opened.new.blocks.undo.region)
        (R.burns opened.old.blocks.undo.region) (R.burns opened.new.blocks.undo.region) }
    ensures makes { (change : Durable → Durable)
        → IfRunning opened.old (ChangesTo change (kept_of R.tells R.extent R.image opened.old) opened.old.table (all_changed changes.now opened.old.table))
        → Makes opened.old.blocks.undo.stopped enlist_stop change result (kept_of R.tells R.extent R.image opened.old) (kept_of R.tells R.extent R.image opened.new)
        (may_of R.tells R.extent R.may_leave opened.old) (may_of R.tells R.extent R.may_leave opened.new) }
{
    let written = opened.write(changes);
    let _free = free_blocks(opened);
    match written {
        Ok(()) => Ok(()),
        Err(Stopped) => Err(EnlistNo::Stopped),
    }
}

// Makes planned changes, by which the containers come that aren't there, in memory and in the region.
fn make<R: Region>(held: &mut Held<R>, changes: &[Change], conts: &[ContId]) -> Result<(), EnlistNo>
    requires running { held.old.opened.blocks.undo.stopped ≡ false }
    requires few { length changes.now ≤ 256 }
    requires fits { AllFit held.old.opened.table changes.now }
    requires makes { ChangesTo (enlisted conts.now) (held_durable R.tells R.extent R.image held.old) held.old.opened.table (all_changed changes.now held.old.opened.table) }
    ensures call { Turns 0 enlist_stop result (held_state R.count R.burns R.can_burn held.old) (held_state R.count R.burns R.can_burn held.new) }
    ensures free { (held_state R.count R.burns R.can_burn held.new).free ≡ (held_state R.count R.burns R.can_burn held.old).free }
    ensures fuse { (held_state R.count R.burns R.can_burn held.new).left ≡ (held_state R.count R.burns R.can_burn held.old).left }
    ensures size { R.extent held.new.opened.blocks.undo.region ≡ R.extent held.old.opened.blocks.undo.region }
    ensures target { held.new.target ≡ held.old.target }
    ensures answer { Answers enlist_open result (enlists conts.now) (held_durable R.tells R.extent R.image held.old) }
    ensures many { IfErr result IsManyShown }
    ensures kept { Makes (held_state R.count R.burns R.can_burn held.old).stopped enlist_stop (enlisted conts.now) result
        (held_durable R.tells R.extent R.image held.old) (held_durable R.tells R.extent R.image held.new)
        (held_may R.tells R.extent R.may_leave held.old) (held_may R.tells R.extent R.may_leave held.new) }
{
    held.contents.enlist(conts)?;
    write(&mut held.opened, changes)
}

/// Adds the containers that aren't there.
///
/// # Errors
///
/// `Stopped` where it has stopped, and else only where a count of the region rose in this call. `TooMany`
/// exactly where the containers together are more than 256, and shows their number, which is more than 256
/// also where nothing is told. `Memory` for want of memory.
pub fn enlist<R: Region>(held: &mut Held<R>, conts: &[ContId]) -> Result<(), EnlistNo>
    ensures call { Turns 0 enlist_stop result (held_state R.count R.burns R.can_burn held.old) (held_state R.count R.burns R.can_burn held.new) }
    ensures free { (held_state R.count R.burns R.can_burn held.new).free ≡ (held_state R.count R.burns R.can_burn held.old).free }
    ensures fuse { (held_state R.count R.burns R.can_burn held.new).left ≡ (held_state R.count R.burns R.can_burn held.old).left }
    ensures size { R.extent held.new.opened.blocks.undo.region ≡ R.extent held.old.opened.blocks.undo.region }
    ensures target { held.new.target ≡ held.old.target }
    ensures answer { Answers enlist_open result (enlists conts.now) (held_durable R.tells R.extent R.image held.old) }
    ensures many { IfErr result IsManyShown }
    ensures kept { Makes (held_state R.count R.burns R.can_burn held.old).stopped enlist_stop (enlisted conts.now) result
        (held_durable R.tells R.extent R.image held.old) (held_durable R.tells R.extent R.image held.new)
        (held_may R.tells R.extent R.may_leave held.old) (held_may R.tells R.extent R.may_leave held.new) }
{
    if held.is_stopped() {
        return Err(EnlistNo::Stopped);
    }
    let changes = plan(&held.opened, held.contents.alloc, conts)?;
    make(held, &changes, conts)
}
