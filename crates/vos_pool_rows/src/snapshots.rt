// Snapshots of a pool.
ghost use Rattle.std.specs.Prelude.{◌≡◌, true};
ghost use Rattle.std.specs.Option.{ForSome};
ghost use Rattle.daos_model.specs.Changes.{created, frozen, thawed};
ghost use Rattle.daos_model.specs.Durables.{is_frozen};
ghost use Rattle.vos_pool_held.specs.State.{held_durable, held_may, held_state};
ghost use Rattle.vos_store.specs.Answers.{freezes};
ghost use Rattle.vos_store.specs.Calls.{Answers, IfRunning, Makes, Turns, UsesFuse};
ghost use Rattle.vos_store.specs.Conditions.{CanFreeze};
ghost use Rattle.vos_store.specs.Refusals.{always_stop, freeze_stop};

use base_outside::region::Region;
use base_types::epoch::Epoch;
use base_types::id::ContId;
use vos_pool_held::held::Held;
use vos_pool_held::resting::free_blocks;
use vos_store::refusal::{FreezeNo, Stopped};

/// Freezes a snapshot of a container, and raises the floor to it. A second freeze of the same epoch
/// changes nothing. Takes no memory.
///
/// # Errors
///
/// `Stopped` where it has stopped, and else only where a count of the region rose in this call. `Below`
/// exactly where the epoch is at or below the aggregated-to epoch, which it shows with the number of its
/// aggregation. `NoPlace` exactly where that doesn't hold and 256 other places are used.
pub fn freeze<R: Region>(held: &mut Held<R>, cont: ContId, s: Epoch) -> Result<(), FreezeNo>
    requires { IfRunning (held_state R.count R.burns R.can_burn held.old) (ForSome (held_durable R.tells R.extent R.image held.old) (CanFreeze cont s)) }
    ensures call { Turns 0 freeze_stop result (held_state R.count R.burns R.can_burn held.old) (held_state R.count R.burns R.can_burn held.new) }
    ensures free { (held_state R.count R.burns R.can_burn held.new).free ≡ (held_state R.count R.burns R.can_burn held.old).free }
    ensures fuse { UsesFuse freeze_stop result (held_state R.count R.burns R.can_burn held.old) (held_state R.count R.burns R.can_burn held.new) }
    ensures size { R.extent held.new.opened.blocks.undo.region ≡ R.extent held.old.opened.blocks.undo.region }
    ensures target { held.new.target ≡ held.old.target }
    ensures answer { Answers freeze_stop result (freezes cont s) (held_durable R.tells R.extent R.image held.old) }
    ensures kept { Makes (held_state R.count R.burns R.can_burn held.old).stopped freeze_stop (frozen cont s) result
        (held_durable R.tells R.extent R.image held.old) (held_durable R.tells R.extent R.image held.new)
        (held_may R.tells R.extent R.may_leave held.old) (held_may R.tells R.extent R.may_leave held.new) }
{
    if held.is_stopped() {
        return Err(FreezeNo::Stopped);
    }
    held.contents.can_freeze(cont, s)?;
    held.opened.freeze(cont, s)?;
    let _free = free_blocks(&held.opened);
    held.contents.freeze(cont, s);
    Ok(())
}

/// Notes that a frozen snapshot is created. Takes no memory.
///
/// # Errors
///
/// `Stopped` comes only where a count of the region rose in this call, or it had stopped before.
pub fn create<R: Region>(held: &mut Held<R>, cont: ContId, s: Epoch) -> Result<(), Stopped>
    requires { IfRunning (held_state R.count R.burns R.can_burn held.old) (ForSome (held_durable R.tells R.extent R.image held.old) (λ d. is_frozen d cont s ≡ true)) }
    ensures call { Turns 0 always_stop result (held_state R.count R.burns R.can_burn held.old) (held_state R.count R.burns R.can_burn held.new) }
    ensures free { (held_state R.count R.burns R.can_burn held.new).free ≡ (held_state R.count R.burns R.can_burn held.old).free }
    ensures fuse { UsesFuse always_stop result (held_state R.count R.burns R.can_burn held.old) (held_state R.count R.burns R.can_burn held.new) }
    ensures size { R.extent held.new.opened.blocks.undo.region ≡ R.extent held.old.opened.blocks.undo.region }
    ensures target { held.new.target ≡ held.old.target }
    ensures kept { Makes (held_state R.count R.burns R.can_burn held.old).stopped always_stop (created cont s) result
        (held_durable R.tells R.extent R.image held.old) (held_durable R.tells R.extent R.image held.new)
        (held_may R.tells R.extent R.may_leave held.old) (held_may R.tells R.extent R.may_leave held.new) }
{
    held.opened.create(cont, s)?;
    let _free = free_blocks(&held.opened);
    held.contents.create(cont, s);
    Ok(())
}

/// Drops a frozen snapshot. Takes no memory.
///
/// # Errors
///
/// `Stopped` comes only where a count of the region rose in this call, or it had stopped before.
pub fn thaw<R: Region>(held: &mut Held<R>, cont: ContId, s: Epoch) -> Result<(), Stopped>
    requires { IfRunning (held_state R.count R.burns R.can_burn held.old) (ForSome (held_durable R.tells R.extent R.image held.old) (λ d. is_frozen d cont s ≡ true)) }
    ensures call { Turns 0 always_stop result (held_state R.count R.burns R.can_burn held.old) (held_state R.count R.burns R.can_burn held.new) }
    ensures free { (held_state R.count R.burns R.can_burn held.new).free ≡ (held_state R.count R.burns R.can_burn held.old).free }
    ensures fuse { UsesFuse always_stop result (held_state R.count R.burns R.can_burn held.old) (held_state R.count R.burns R.can_burn held.new) }
    ensures size { R.extent held.new.opened.blocks.undo.region ≡ R.extent held.old.opened.blocks.undo.region }
    ensures target { held.new.target ≡ held.old.target }
    ensures kept { Makes (held_state R.count R.burns R.can_burn held.old).stopped always_stop (thawed cont s) result
        (held_durable R.tells R.extent R.image held.old) (held_durable R.tells R.extent R.image held.new)
        (held_may R.tells R.extent R.may_leave held.old) (held_may R.tells R.extent R.may_leave held.new) }
{
    held.opened.thaw(cont, s)?;
    let _free = free_blocks(&held.opened);
    held.contents.thaw(cont, s);
    Ok(())
}
